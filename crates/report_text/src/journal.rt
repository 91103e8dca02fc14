//! The text of a journal: one line for each step that was made.

ghost use Rattle.std.specs.Prelude.{◌≡◌, [], ◌∷◌, ◌++◌, map, IfOk, OnOk, string_bytes};
ghost use Rattle.hex.specs.Hex.{encode_lower};
ghost use Rattle.report_text.specs.Lines.{text_of};
ghost use Rattle.report_text.specs.Journals.{side_text, word_text, op_text, answer_text, item_text};
ghost use Rattle.report_text.specs.Journals.{stored_text};
ghost use Rattle.report_text.specs.Journals.{carried_text, queue_name, entry_line, journal_text};

use crate::layout::name_at;
use cargo_core::{BlkReq, BlkResp, Item, Memory, Word};
use region_layout::{Layout, QueueRow};
use std::alloc::Global;
use wire_core::{Answer, Entry, Op, Side};

// The ending that tells the bells apart.
fn side_text(side: Side) -> &'static str
    ensures { result.now ≡ side_text side }
{
    match side {
        Side::Forward => "",
        Side::Backward => "_back",
    }
}

// The name of a word.
fn word_text(word: Word) -> &'static str
    ensures { result.now ≡ word_text word }
{
    match word {
        Word::Head => "head",
        Word::Tail => "tail",
        Word::Flag => "flag",
        Word::FlagBack => "flag_back",
        Word::Pending => "pending",
        Word::PendingBack => "pending_back",
    }
}

// The name of a call without the ending that tells its bell or its word, and the ending.
fn op_parts(op: Op) -> (&'static str, &'static str)
    ensures { result.0.now ++ result.1.now ≡ op_text op }
{
    match op {
        Op::See => ("see", ""),
        Op::Take => ("take", ""),
        Op::Put => ("put", ""),
        Op::Room => ("room", ""),
        Op::Ask(side) => ("ask", side_text(side)),
        Op::Waive(side) => ("waive", side_text(side)),
        Op::Wanted(side) => ("wanted", side_text(side)),
        Op::Settle(side) => ("settle", side_text(side)),
        Op::Ring(side) => ("ring", side_text(side)),
        Op::Wake(side) => ("wake", side_text(side)),
        Op::Store(word, _) => ("store_", word_text(word)),
    }
}

// The word for an answer.
fn answer_text(answer: Answer) -> &'static str
    ensures { result.now ≡ answer_text answer }
{
    match answer {
        Answer::Done => "-",
        Answer::Yes => "yes",
        Answer::No => "no",
    }
}

// Appends a byte, in two digits.
#[tactic(auto, using(crate::proofs::HexLemmas::two_digits))]
fn add_byte(to: &mut String, byte: u8) -> Result<(), Memory>
    ensures { OnOk result (string_bytes to.new ≡ string_bytes to.old ++ encode_lower (byte ∷ [])) }
{
    write!(to, "{:x}{:x}", byte / 16, byte % 16)?;
    Ok(())
}

// Appends a request.
fn add_request(to: &mut String, req: BlkReq) -> Result<(), Memory>
    ensures { OnOk result (string_bytes to.new ≡ string_bytes to.old ++ item_text (Item.Req req)) }
{
    write!(to, "{} {} {}", req.code.number(), req.addr, req.block)?;
    write!(to, " {} {}", req.count, req.id)?;
    Ok(())
}

// Appends a response.
fn add_response(to: &mut String, resp: BlkResp) -> Result<(), Memory>
    ensures { OnOk result (string_bytes to.new ≡ string_bytes to.old
        ++ item_text (Item.Resp resp)) }
{
    write!(to, "{} {} {}", resp.status.number(), resp.count, resp.id)?;
    Ok(())
}

// Appends an item.
fn add_item(to: &mut String, item: Item) -> Result<(), Memory>
    ensures { OnOk result (string_bytes to.new ≡ string_bytes to.old ++ item_text item) }
{
    match item {
        Item::Net(desc) => {
            write!(to, "{} {}", desc.addr, desc.len)?;
            Ok(())
        }
        Item::Byte(byte) => add_byte(to, byte),
        Item::Req(req) => add_request(to, req),
        Item::Resp(resp) => add_response(to, resp),
    }
}

// Appends the value of a store, behind a space.
fn add_stored(to: &mut String, op: Op) -> Result<(), Memory>
    ensures { OnOk result (string_bytes to.new ≡ string_bytes to.old ++ stored_text op) }
{
    match op {
        Op::Store(_, value) => {
            write!(to, " {}", value)?;
            Ok(())
        }
        _ => Ok(()),
    }
}

// Appends an item that is there, behind a space.
fn add_carried(to: &mut String, item: Option<Item>) -> Result<(), Memory>
    ensures { OnOk result (string_bytes to.new ≡ string_bytes to.old ++ carried_text item) }
{
    match item {
        None => Ok(()),
        Some(item) => {
            to.push_str(" ")?;
            add_item(to, item)
        }
    }
}

// The name of the queue at a place; nothing where the queues end before it.
fn queue_name(queues: &[QueueRow], q: usize) -> &str
    ensures { result.now ≡ queue_name queues.now q }
{
    match queues.get(q) {
        Some(queue) => queue.name.as_str(),
        None => "",
    }
}

// Appends an entry.
fn add_entry(to: &mut String, layout: &Layout, entry: &Entry) -> Result<(), Memory>
    ensures { OnOk result (string_bytes to.new ≡ string_bytes to.old
        ++ text_of (entry_line layout.now entry.now ∷ [])) }
{
    let actor = name_at(layout.actors(), entry.actor.0 as usize);
    let queue = queue_name(layout.queues(), entry.event.queue.0 as usize);
    let (op, side) = op_parts(entry.event.op);
    write!(to, "{} {} {}{}", actor, queue, op, side)?;
    write!(to, " {}", answer_text(entry.event.answer))?;
    add_stored(to, entry.event.op)?;
    add_carried(to, entry.event.item)?;
    to.push_str("\n")?;
    Ok(())
}

/// The text of a journal: a line for each entry, with the names that the layout gives the actors
/// and the queues (nothing where it has no such number). The time is linear in the text. The
/// spellings are this project's own; the only error is want of memory.
pub fn write_journal(alloc: Global, layout: &Layout, journal: &[Entry]) -> Result<String, Memory>
    ensures { IfOk result (λ s. string_bytes s ≡ journal_text layout.now journal.now) }
{
    let mut text = String::new(alloc);
    for k in 0..journal.len() {
        add_entry(&mut text, layout, &journal[k])?;
    }
    Ok(text)
}
