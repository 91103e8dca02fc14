//! The inks of shapes: each is a class of the style sheet, which gives it a colour for light and
//! for dark, and a pattern or a dash of its own, so that colour isn't the only sign.
ghost use Rattle.std.specs.Prelude.{◌≡◌, ◌++◌, OnOk};
ghost use Rattle.picture_kit.specs.Inks.{kind_ink, ink_stem, ink_text};

use crate::numbers::push_decimal;
use cargo_core::{Bytes, Memory, QueueKind};
use std::alloc::Global;

/// What a shape is drawn with.
#[derive(Clone, Copy, Debug, PartialEq, Eq)]
pub enum Ink {
    /// The box of a domain.
    Domain,
    /// The box of a device.
    Device,
    /// The line below a box, at which its arrows begin and end.
    Lane,
    /// An arrow of a queue of network descriptors.
    Net,
    /// An arrow of a queue of bytes.
    Byte,
    /// An arrow of a queue of block requests.
    Req,
    /// An arrow of a queue of block responses.
    Resp,
    /// A channel.
    Channel,
    /// A region of memory.
    Region,
    /// What belongs to the owner of this number; numbers that are equal modulo 8 look alike.
    Shade(u64),
    /// The words above a part of a picture.
    Heading,
    /// Other words.
    Label,
    /// An actor asks to be notified.
    Asked,
    /// A bell is rung.
    Rung,
    /// A notification is taken.
    Woken,
    /// A look that was answered no.
    Refused,
    /// The open end of an arrow, whose other end isn't in the picture.
    Loose,
}

// What the class of an ink is called, but for its number.
fn stem(ink: Ink) -> &'static str
    ensures { result.now ≡ ink_stem ink }
{
    match ink {
        Ink::Domain => "domain",
        Ink::Device => "device",
        Ink::Lane => "lane",
        Ink::Net => "net",
        Ink::Byte => "byte",
        Ink::Req => "req",
        Ink::Resp => "resp",
        Ink::Channel => "channel",
        Ink::Region => "region",
        Ink::Shade(_) => "shade shade",
        Ink::Heading => "heading",
        Ink::Label => "label",
        Ink::Asked => "asked",
        Ink::Rung => "rung",
        Ink::Woken => "woken",
        Ink::Refused => "refused",
        Ink::Loose => "loose",
    }
}

/// Appends the class of an ink.
pub fn push_ink(alloc: Global, to: &mut Bytes, ink: Ink) -> Result<(), Memory>
    ensures { OnOk result (to.new ≡ to.old ++ ink_text ink) }
{
    to.extend_from_slice(stem(ink).as_bytes())?;
    match ink {
        Ink::Shade(n) => push_decimal(alloc, to, n % 8),
        _ => Ok(()),
    }
}

/// The ink of the arrows of a queue.
pub fn kind_ink(kind: QueueKind) -> Ink
    ensures { result ≡ kind_ink kind }
{
    match kind {
        QueueKind::Net => Ink::Net,
        QueueKind::Byte => Ink::Byte,
        QueueKind::Req => Ink::Req,
        QueueKind::Resp => Ink::Resp,
    }
}
