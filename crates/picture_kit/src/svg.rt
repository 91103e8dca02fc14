//! A picture as SVG: an element for each shape, in order, below a title and a description.
ghost use Rattle.std.specs.Prelude.{◌≡◌, ◌++◌, IfOk, OnOk, string_bytes};
ghost use Rattle.picture_kit.specs.Svg.{area_text, segment_text, dot_text, spot_text, form_name};
ghost use Rattle.picture_kit.specs.Svg.{place_text, words_text, note_text, begin_text, end_text};
ghost use Rattle.picture_kit.specs.Svg.{shape_text, shapes_text, opening, view_text, size_text};
ghost use Rattle.picture_kit.specs.Svg.{element_text, front_text, svg_text};

use crate::ink::push_ink;
use crate::numbers::push_number;
use crate::shape::{Area, Form, Picture, Segment, Shape, Spot};
use crate::xml_text::push_escaped;
use cargo_core::{Bytes, Memory};
use std::alloc::Global;

// The name of the element for a form.
fn form_name(form: &Form) -> &'static str
    ensures { result.now ≡ form_name form.now }
{
    match form {
        Form::Block(_) => "rect",
        Form::Line(_) => "line",
        Form::Dot(_) => "circle",
        Form::Words(_, _) => "text",
    }
}

// Appends the attributes that say where a rectangle is.
fn push_area(alloc: Global, to: &mut Bytes, area: Area) -> Result<(), Memory>
    ensures { OnOk result (to.new ≡ to.old ++ area_text area) }
{
    push_number(alloc, to, "x", area.x)?;
    push_number(alloc, to, "y", area.y)?;
    push_number(alloc, to, "width", area.width)?;
    push_number(alloc, to, "height", area.height)
}

// Appends those of a line.
fn push_segment(alloc: Global, to: &mut Bytes, segment: Segment) -> Result<(), Memory>
    ensures { OnOk result (to.new ≡ to.old ++ segment_text segment) }
{
    push_number(alloc, to, "x1", segment.from.x)?;
    push_number(alloc, to, "y1", segment.from.y)?;
    push_number(alloc, to, "x2", segment.to.x)?;
    push_number(alloc, to, "y2", segment.to.y)
}

// Appends those of a dot.
fn push_dot(alloc: Global, to: &mut Bytes, spot: Spot) -> Result<(), Memory>
    ensures { OnOk result (to.new ≡ to.old ++ dot_text spot) }
{
    push_number(alloc, to, "cx", spot.x)?;
    push_number(alloc, to, "cy", spot.y)?;
    push_number(alloc, to, "r", 3)
}

// Appends those of words.
fn push_spot(alloc: Global, to: &mut Bytes, spot: Spot) -> Result<(), Memory>
    ensures { OnOk result (to.new ≡ to.old ++ spot_text spot) }
{
    push_number(alloc, to, "x", spot.x)?;
    push_number(alloc, to, "y", spot.y)
}

// Appends the attributes that say where a form is.
fn push_place(alloc: Global, to: &mut Bytes, form: &Form) -> Result<(), Memory>
    ensures { OnOk result (to.new ≡ to.old ++ place_text form.now) }
{
    match form {
        Form::Block(area) => push_area(alloc, to, *area),
        Form::Line(segment) => push_segment(alloc, to, *segment),
        Form::Dot(spot) => push_dot(alloc, to, *spot),
        Form::Words(spot, _) => push_spot(alloc, to, *spot),
    }
}

// Appends a note, where there is one.
fn push_note(to: &mut Bytes, note: &str) -> Result<(), Memory>
    ensures { OnOk result (to.new ≡ to.old ++ note_text note.now) }
{
    if note.is_empty() {
        return Ok(());
    }
    to.extend_from_slice(b"<title>")?;
    push_escaped(to, note.as_bytes())?;
    to.extend_from_slice(b"</title>")
}

// Appends the words of a form that has some.
fn push_words(to: &mut Bytes, form: &Form) -> Result<(), Memory>
    ensures { OnOk result (to.new ≡ to.old ++ words_text form.now) }
{
    match form {
        Form::Words(_, words) => push_escaped(to, words.as_str().as_bytes()),
        _ => Ok(()),
    }
}

// Appends the begin of a shape: its element, with its ink as the class, and its place.
fn push_begin(alloc: Global, to: &mut Bytes, shape: &Shape) -> Result<(), Memory>
    ensures { OnOk result (to.new ≡ to.old ++ begin_text shape.now) }
{
    to.push(b'<')?;
    to.extend_from_slice(form_name(&shape.form).as_bytes())?;
    to.extend_from_slice(b" class=\"")?;
    push_ink(alloc, to, shape.ink)?;
    to.push(b'"')?;
    push_place(alloc, to, &shape.form)?;
    to.push(b'>')
}

// Appends the end of a shape.
fn push_end(to: &mut Bytes, form: &Form) -> Result<(), Memory>
    ensures { OnOk result (to.new ≡ to.old ++ end_text form.now) }
{
    to.extend_from_slice(b"</")?;
    to.extend_from_slice(form_name(form).as_bytes())?;
    to.extend_from_slice(b">\n")
}

// Appends a shape.
fn push_shape(alloc: Global, to: &mut Bytes, shape: &Shape) -> Result<(), Memory>
    ensures { OnOk result (to.new ≡ to.old ++ shape_text shape.now) }
{
    push_begin(alloc, to, shape)?;
    push_note(to, shape.note.as_str())?;
    push_words(to, &shape.form)?;
    push_end(to, &shape.form)
}

// Appends each shape.
fn push_shapes(alloc: Global, to: &mut Bytes, shapes: &[Shape]) -> Result<(), Memory>
    ensures { OnOk result (to.new ≡ to.old ++ shapes_text shapes.now) }
{
    for shape in shapes {
        push_shape(alloc, to, shape)?;
    }
    Ok(())
}

// Appends the begin of the element of a picture.
#[tactic(auto, unfolding(crate::specs::Svg::opening))]
fn push_opening(to: &mut Bytes) -> Result<(), Memory>
    ensures { OnOk result (to.new ≡ to.old ++ opening) }
{
    to.extend_from_slice(b"<svg xmlns=\"http://www.w3.org/2000/svg\" role=\"img\"")
}

// That its places are counted from its upper left corner.
fn view_text(alloc: Global, width: u64, height: u64) -> Result<String, Memory>
    ensures { IfOk result (λ text. string_bytes text ≡ view_text width height) }
{
    Ok(format!(in alloc; " viewBox=\"0 0 {width} {height}\">\n")?)
}

// Appends its size behind that.
#[tactic(auto, unfolding(crate::specs::Svg::size_text))]
fn push_size(alloc: Global, to: &mut Bytes, width: u64, height: u64) -> Result<(), Memory>
    ensures { OnOk result (to.new ≡ to.old ++ size_text width height) }
{
    push_number(alloc, to, "width", width)?;
    push_number(alloc, to, "height", height)?;
    let view = view_text(alloc, width, height)?;
    to.extend_from_slice(view.as_bytes())
}

// Appends an element with a text in it.
#[tactic(auto, unfolding(crate::specs::Svg::element_text))]
fn push_element(to: &mut Bytes, name: &str, text: &str) -> Result<(), Memory>
    ensures { OnOk result (to.new ≡ to.old ++ element_text name.now text.now) }
{
    to.push(b'<')?;
    to.extend_from_slice(name.as_bytes())?;
    to.push(b'>')?;
    push_escaped(to, text.as_bytes())?;
    to.extend_from_slice(b"</")?;
    to.extend_from_slice(name.as_bytes())?;
    to.extend_from_slice(b">\n")
}

// Appends what stands in front of the shapes of a picture.
#[tactic(auto, unfolding(crate::specs::Svg::front_text))]
fn push_front(alloc: Global, to: &mut Bytes, style: &str, picture: &Picture) -> Result<(), Memory>
    ensures { OnOk result (to.new ≡ to.old ++ front_text style.now picture.now) }
{
    push_opening(to)?;
    push_size(alloc, to, picture.width, picture.height)?;
    push_element(to, "title", picture.title.as_str())?;
    push_element(to, "desc", picture.about.as_str())?;
    to.extend_from_slice(style.as_bytes())
}

/// A picture as SVG. The style sheet, with the definitions of patterns and arrow heads, is put in
/// as it is, behind the title and the description; all texts of the picture are escaped. The only
/// error is want of memory.
pub fn write_svg(alloc: Global, style: &str, picture: &Picture) -> Result<Bytes, Memory>
    ensures { IfOk result (λ text. text ≡ svg_text style.now picture.now) }
{
    let mut text = Bytes::new(alloc);
    push_front(alloc, &mut text, style, picture)?;
    push_shapes(alloc, &mut text, picture.shapes.as_slice())?;
    text.extend_from_slice(b"</svg>\n")?;
    Ok(text)
}
