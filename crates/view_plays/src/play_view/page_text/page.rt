//! A page in HTML: a front, each picture under its heading, the report, and an end.
ghost use Rattle.std.specs.Prelude.{◌≡◌, ◌++◌, IfOk, OnOk};
ghost use Rattle.picture_kit.specs.XmlText.Spelling.{escaped};
ghost use Rattle.view_plays.specs.PlayView.PageText.Page.{between, heading_text, part_text, parts_text, report_text};
ghost use Rattle.view_plays.specs.PlayView.PageText.Page.{style_text, page_text};

use cargo_core::{Bytes, Memory, Text};
use picture_kit::xml_text::push_escaped;
use picture_kit::{Picture, write_svg};
use std::alloc::Global;

/// A picture under a heading.
#[derive(Debug, Drop)]
pub struct Part {
    pub heading: Text,
    pub picture: Picture,
}

// Appends a text between a begin and an end.
#[tactic(auto, unfolding(crate::specs::PlayView::PageText::Page::between))]
fn push_between(to: &mut Bytes, begin: &str, text: &[u8], end: &str) -> Result<(), Memory>
    ensures { OnOk result (to.new ≡ to.old ++ between begin.now text.now end.now) }
{
    to.extend_from_slice(begin.as_bytes())?;
    to.extend_from_slice(text)?;
    to.extend_from_slice(end.as_bytes())
}

// Appends an escaped text between a begin and an end.
#[tactic(auto, unfolding(crate::specs::PlayView::PageText::Page::between))]
fn push_inside(to: &mut Bytes, begin: &str, text: &str, end: &str) -> Result<(), Memory>
    ensures { OnOk result (to.new ≡ to.old ++ between begin.now (escaped text.now) end.now) }
{
    to.extend_from_slice(begin.as_bytes())?;
    push_escaped(to, text.as_bytes())?;
    to.extend_from_slice(end.as_bytes())
}

// Appends a heading.
fn push_heading(to: &mut Bytes, heading: &str) -> Result<(), Memory>
    ensures { OnOk result (to.new ≡ to.old ++ heading_text heading.now) }
{
    push_inside(to, "<h2>", heading, "</h2>\n")
}

// Appends a picture under its heading, in a frame that scrolls.
#[tactic(auto, unfolding(crate::specs::PlayView::PageText::Page::part_text))]
fn push_part(alloc: Global, to: &mut Bytes, part: &Part) -> Result<(), Memory>
    ensures { OnOk result (to.new ≡ to.old ++ part_text part.now) }
{
    let picture = write_svg(alloc, "", &part.picture)?;
    push_heading(to, part.heading.as_str())?;
    push_between(
        to,
        "<div class=\"frame\">\n",
        picture.as_slice(),
        "</div>\n",
    )
}

// Appends each picture.
fn push_parts(alloc: Global, to: &mut Bytes, parts: &[Part]) -> Result<(), Memory>
    ensures { OnOk result (to.new ≡ to.old ++ parts_text parts.now) }
{
    for part in parts {
        push_part(alloc, to, part)?;
    }
    Ok(())
}

// Appends the report, as it is printed.
#[tactic(auto, unfolding(crate::specs::PlayView::PageText::Page::report_text))]
fn push_report(to: &mut Bytes, report: &str) -> Result<(), Memory>
    ensures { OnOk result (to.new ≡ to.old ++ report_text report.now) }
{
    push_heading(to, "Report")?;
    push_inside(to, "<pre>\n", report, "</pre>\n")
}

// Appends the style sheet of the pictures.
fn push_style(to: &mut Bytes, style: &str) -> Result<(), Memory>
    ensures { OnOk result (to.new ≡ to.old ++ style_text style.now) }
{
    let begin = "<svg width=\"0\" height=\"0\" aria-hidden=\"true\">\n";
    push_between(to, begin, style.as_bytes(), "</svg>\n")
}

/// A page: a front, the style sheet of its pictures, the pictures in order, the report, and an end
/// with the script. Front, style sheet and end are put in as they are; all other texts are escaped,
/// and none of them stands in the script. The only error is want of memory. This project's own.
#[tactic(auto, unfolding(crate::specs::PlayView::PageText::Page::page_text))]
pub fn write_page(
    alloc: Global,
    front: &str,
    style: &str,
    parts: &[Part],
    report: &str,
    end: &str,
) -> Result<Bytes, Memory>
    ensures { IfOk result (λ text. text ≡ page_text front.now style.now parts.now
        report.now end.now) }
{
    let mut text = Bytes::from_slice(alloc, front.as_bytes())?;
    push_style(&mut text, style)?;
    push_parts(alloc, &mut text, parts)?;
    push_report(&mut text, report)?;
    text.extend_from_slice(end.as_bytes())?;
    Ok(text)
}
