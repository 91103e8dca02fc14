//! Calls in words, and the inks of marks.
ghost use Rattle.std.specs.Prelude.{◌≡◌, ◌++◌};
ghost use Rattle.pictures.specs.PlayPicture.Words.{side_text, op_text, bell_ink, buffer_ink};

use cargo_core::Item;
use picture_kit::{Ink, kind_ink};
use wire_core::{Answer, Event, Op, Side};

// What tells the bells apart.
fn side_text(side: Side) -> &'static str
    ensures { result.now ≡ side_text side }
{
    match side {
        Side::Forward => "",
        Side::Backward => " back",
    }
}

/// A call in words.
pub fn op_parts(op: Op) -> (&'static str, &'static str)
    ensures { result.0.now ++ result.1.now ≡ op_text op }
{
    match op {
        Op::See => ("see", ""),
        Op::Take => ("take", ""),
        Op::Put => ("put", ""),
        Op::Room => ("room", ""),
        Op::Ask(side) => ("ask", side_text(side)),
        Op::Waive(side) => ("waive", side_text(side)),
        Op::Wanted(side) => ("wanted", side_text(side)),
        Op::Settle(side) => ("settle", side_text(side)),
        Op::Ring(side) => ("ring", side_text(side)),
        Op::Wake(side) => ("wake", side_text(side)),
        Op::Store(_, _) => ("store", ""),
    }
}

/// The ink of the mark for a call that is no put and no take; none where it gets no mark.
pub fn bell_ink(event: &Event) -> Option<Ink>
    ensures { result ≡ bell_ink event.now.op event.now.answer }
{
    match (event.op, event.answer) {
        (Op::Ask(_), _) => Some(Ink::Asked),
        (Op::Ring(_), _) => Some(Ink::Rung),
        (Op::Wake(_), _) => Some(Ink::Woken),
        (Op::See, Answer::No) => Some(Ink::Refused),
        (Op::Room, Answer::No) => Some(Ink::Refused),
        _ => None,
    }
}

/// The ink by which a buffer is followed: one for each page of 2,048 bytes, in turn; of items that
/// name none, the ink of their kind.
pub fn buffer_ink(item: Item) -> Ink
    ensures { result ≡ buffer_ink item }
{
    match item {
        Item::Net(desc) => Ink::Shade(desc.addr / 2048),
        Item::Req(req) => Ink::Shade(req.addr / 2048),
        _ => kind_ink(item.kind()),
    }
}
