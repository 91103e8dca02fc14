//! The text of some tags.
ghost use Rattle.std.specs.Prelude.{◌≡◌, ◌++◌, ◌+◌, ◌<◌, ◌^◌, IfOk, OnOk};
ghost use Rattle.picture_kit.specs.XmlText.Spelling.{attribute_text, attributes_text, head_text, tag_text};
ghost use Rattle.picture_kit.specs.XmlText.Spelling.{indent, depth_before, depth_behind, line_text};
ghost use Rattle.picture_kit.specs.XmlText.Spelling.{lines_text, xml_text};

use crate::xml_text::escape::push_escaped;
use crate::xml_text::tag::{Attribute, Head, Tag};
use cargo_core::{Bytes, Memory};
use std::alloc::Global;

/// What an XML text begins with.
const PROLOG: &str = "<?xml version=\"1.0\" encoding=\"UTF-8\"?>\n";

// Appends an attribute.
fn push_attribute(to: &mut Bytes, attribute: &Attribute) -> Result<(), Memory>
    ensures { OnOk result (to.new ≡ to.old ++ attribute_text attribute.now) }
{
    to.push(b' ')?;
    to.extend_from_slice(attribute.name.as_str().as_bytes())?;
    to.extend_from_slice(b"=\"")?;
    push_escaped(to, attribute.value.as_slice())?;
    to.push(b'"')
}

// Appends each attribute.
fn push_attributes(to: &mut Bytes, attributes: &[Attribute]) -> Result<(), Memory>
    ensures { OnOk result (to.new ≡ to.old ++ attributes_text attributes.now) }
{
    for attribute in attributes {
        push_attribute(to, attribute)?;
    }
    Ok(())
}

// Appends what a tag has in front of its end.
fn push_head(to: &mut Bytes, head: &Head) -> Result<(), Memory>
    ensures { OnOk result (to.new ≡ to.old ++ head_text head.now) }
{
    to.push(b'<')?;
    to.extend_from_slice(head.name.as_str().as_bytes())?;
    push_attributes(to, head.attributes.as_slice())
}

// Appends a tag.
fn push_tag(to: &mut Bytes, tag: &Tag) -> Result<(), Memory>
    ensures { OnOk result (to.new ≡ to.old ++ tag_text tag.now) }
{
    match tag {
        Tag::Open(head) => {
            push_head(to, head)?;
            to.push(b'>')
        }
        Tag::Alone(head) => {
            push_head(to, head)?;
            to.extend_from_slice(b" />")
        }
        Tag::Close(name) => {
            to.extend_from_slice(b"</")?;
            to.extend_from_slice(name.as_str().as_bytes())?;
            to.push(b'>')
        }
    }
}

// Appends what stands in front of a line of this depth.
fn push_indent(to: &mut Bytes, depth: usize) -> Result<(), Memory>
    ensures { OnOk result (to.new ≡ to.old ++ indent depth) }
{
    for _ in 0..depth {
        to.extend_from_slice(b"    ")?;
    }
    Ok(())
}

// How deep the line of a tag stands, where what is in front of it left this depth.
fn depth_before(depth: usize, tag: &Tag) -> usize
    ensures { result ≡ depth_before depth tag.now }
{
    match tag {
        Tag::Close(_) => depth.saturating_sub(1),
        _ => depth,
    }
}

// How deep the next line stands behind the line of a tag at this depth.
fn depth_behind(depth: usize, tag: &Tag) -> usize
    requires { depth + 1 < 2 ^ 64 }
    ensures { result ≡ depth_behind depth tag.now }
{
    match tag {
        Tag::Open(_) => depth + 1,
        _ => depth,
    }
}

// Appends the line of a tag.
fn push_line(to: &mut Bytes, depth: usize, tag: &Tag) -> Result<(), Memory>
    ensures { OnOk result (to.new ≡ to.old ++ line_text depth tag.now) }
{
    push_indent(to, depth)?;
    push_tag(to, tag)?;
    to.push(b'\n')
}

// Appends the line of each tag.
fn push_lines(to: &mut Bytes, tags: &[Tag]) -> Result<(), Memory>
    ensures { OnOk result (to.new ≡ to.old ++ lines_text 0 tags.now) }
{
    let mut depth = 0;
    for tag in tags {
        let here = depth_before(depth, tag);
        push_line(to, here, tag)?;
        depth = depth_behind(here, tag);
    }
    Ok(())
}

/// The text of some tags, with its prolog: a line for each tag, four spaces in front of it for each
/// element that it stands in. The only error is want of memory.
pub fn write_xml(alloc: Global, tags: &[Tag]) -> Result<Bytes, Memory>
    ensures { IfOk result (λ text. text ≡ xml_text tags.now) }
{
    let mut text = Bytes::from_slice(alloc, PROLOG.as_bytes())?;
    push_lines(&mut text, tags)?;
    Ok(text)
}
