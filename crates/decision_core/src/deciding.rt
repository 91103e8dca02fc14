//! What the words and the texts under their names decide, one function for each stage: words,
//! description, plan, trace.
ghost use Rattle.std.specs.Prelude.{◌≡◌, Err, IfOk, ℕ};
ghost use Rattle.sdf_plan.specs.declared.place.Refusal.{Refusal};
ghost use Rattle.sdf_plan.specs.Elements.{IsNumbered};
ghost use Rattle.region_layout.specs.Layouts.{layout_of};
ghost use Rattle.report_text.specs.Answers.{usage_text, accepted_text, bad_trace_text};
ghost use Rattle.report_text.specs.Layouts.{layout_text};
ghost use Rattle.command_words.specs.Words.{texts_of, IsGen, Spells};
ghost use Rattle.command_words.specs.declared.command.Command.{Command};
ghost use Rattle.command_words.specs.declared.command.Command.TheVariants as Do;
ghost use Rattle.decision_core.specs.ShelfCore.Shelves.{ReadsFrom};
ghost use Rattle.decision_core.specs.Judged.{IsAcceptedPlan};
ghost use Rattle.decision_core.specs.Decided.{decision_of, OfEach, IsPlayable};
ghost use Rattle.decision_core.specs.Decisions.{Say, Decides, TextDecides, TraceDecides};
ghost use Rattle.decision_core.specs.Decisions.{GeneratedDecides, refuses, too_long};
ghost use Rattle.decision_core.specs.Generating.{IsSummary};
ghost use Rattle.decision_core.specs.Naming.{HasDescription};
ghost use Rattle.decision_core.specs.ShelfCore.Reading.{WasRead};
ghost use Rattle.decision_core.specs.Readings.{OpensInTurn, ReadLast};
ghost use Rattle.decision_core.specs.Settled.{Settles, SettlesTrace};

use crate::alone::decide_alone;
use crate::describing::{Next, lead_text};
use crate::judging::{judge, let_go};
use crate::shelf_core::{ReadStop, Shelf, read_text};
use crate::{Alone, Asked, Showing, Status};
use cargo_core::Memory;
use command_words::{Command, Schedule, read_words};
use i2c_text::Bus;
use line_text::ports_text::Ports;
use region_layout::lay_out;
use report_text::{
    write_accepted, write_bad_trace, write_layout, write_refused, write_too_long, write_usage,
};
use sdf_model::TEXT_MOST;
use sdf_plan::{Plan, Refusal, SdfFault};
use std::alloc::Global;
use trace_text::{Trace, TraceFault, read_trace};
use workload::{FULL_EXAMPLE, generate};

/// What was decided before anything is played.
#[derive(Drop)]
pub enum Decided {
    /// The answer: its status and its text.
    Say(Status, String),
    /// To do what is asked of a trace on a plan.
    Go(Plan, Trace, Asked),
    /// To play a bus.
    Bus(Bus, Schedule),
    /// To play the ports of a switch.
    Ports(Ports, Schedule),
}

/// A description is refused.
fn say_refusal(alloc: Global, refusal: Refusal) -> Result<Decided, Memory>
    ensures { IfOk result (λ d. decision_of d ≡ refuses refusal) }
{
    let text = write_refused(alloc, &refusal)?;
    Ok(Decided::Say(Status::Refused(refusal.rule), text))
}

/// A description isn't accepted.
pub fn say_unaccepted(alloc: Global, fault: SdfFault) -> Result<Decided, Memory>
    ensures { IfOk result (λ d. (refusal : Refusal) × (fault ≡ SdfFault.Refused refusal)
        × (decision_of d ≡ refuses refusal)) }
{
    match fault {
        SdfFault::Refused(refusal) => say_refusal(alloc, refusal),
        SdfFault::Memory(memory) => Err(memory),
    }
}

/// A trace has a bad line.
pub fn say_bad_trace(alloc: Global, line: u64) -> Result<Decided, Memory>
    ensures { IfOk result (λ d. decision_of d
        ≡ Say (Status.BadTrace line) (bad_trace_text line)) }
{
    let text = write_bad_trace(alloc, line)?;
    Ok(Decided::Say(Status::BadTrace(line), text))
}

/// A trace wasn't read.
fn say_unread(alloc: Global, fault: TraceFault) -> Result<Decided, Memory>
    ensures { IfOk result (λ d. (line : ℕ) × (fault ≡ TraceFault.BadLine line)
        × (decision_of d ≡ Say (Status.BadTrace line) (bad_trace_text line))) }
{
    match fault {
        TraceFault::BadLine(line) => say_bad_trace(alloc, line),
        TraceFault::Memory(memory) => Err(memory),
    }
}

/// A text is too long.
pub fn say_too_long(alloc: Global) -> Result<Decided, Memory>
    ensures { IfOk result (λ d. decision_of d ≡ too_long) }
{
    let text = write_too_long(alloc)?;
    Ok(Decided::Say(Status::TooLong, text))
}

/// The words are no command.
fn say_usage(alloc: Global, k: u32) -> Result<Decided, Memory>
    ensures { IfOk result (λ d. decision_of d ≡ Say (Status.Usage k) (usage_text k)) }
{
    let text = write_usage(alloc, k)?;
    Ok(Decided::Say(Status::Usage(k), text))
}

/// What `check` says of a description that is accepted.
pub fn say_accepted(alloc: Global, plan: &Plan) -> Result<Decided, Memory>
    ensures { IfOk result (λ d. decision_of d ≡ Say Status.Ok (accepted_text plan.now)) }
{
    let text = write_accepted(alloc, plan)?;
    Ok(Decided::Say(Status::Ok, text))
}

/// What `layout` says of a description that is accepted.
pub fn say_layout(alloc: Global, plan: &Plan) -> Result<Decided, Memory>
    requires { IsAcceptedPlan plan.now }
    ensures { IfOk result (λ d. decision_of d
        ≡ Say Status.Ok (layout_text plan.now (layout_of plan.now))) }
{
    let layout = lay_out(alloc, plan)?;
    let text = write_layout(alloc, plan, &layout)?;
    Ok(Decided::Say(Status::Ok, text))
}

/// What the bytes of a trace decide for a plan.
fn decide_trace(alloc: Global, plan: Plan, asked: Asked, bytes: &[u8]) -> Result<Decided, Memory>
    requires accepted { IsAcceptedPlan plan }
    requires numbered { IsNumbered plan }
    ensures decides { IfOk result (λ d. TraceDecides plan asked bytes.now (decision_of d)) }
    ensures playable { IfOk result IsPlayable }
{
    if bytes.len() > TEXT_MOST {
        let_go(plan);
        return say_too_long(alloc);
    }
    match read_trace(alloc, bytes, &plan) {
        Ok(trace) => Ok(Decided::Go(plan, trace, asked)),
        Err(fault) => {
            let_go(plan);
            say_unread(alloc, fault)
        }
    }
}

/// What the trace of `gen` decides for the plan of its description.
fn decide_generated(alloc: Global, plan: Plan, number: u64) -> Result<Decided, Memory>
    requires accepted { IsAcceptedPlan plan }
    requires numbered { IsNumbered plan }
    ensures decides { IfOk result (λ d. GeneratedDecides number plan (decision_of d)) }
    ensures playable { IfOk result IsPlayable }
{
    match generate(alloc, number) {
        Ok(text) => decide_trace(alloc, plan, Asked::Play(Showing::Summary), text.as_bytes()),
        Err(memory) => {
            let_go(plan);
            Err(memory)
        }
    }
}

/// What `gen` decides, by the bytes of its description.
fn decide_gen(alloc: Global, desc: &[u8], number: u64) -> Result<Decided, Memory>
    ensures decides { IfOk result (λ d. TextDecides (GeneratedDecides number) desc.now
        (decision_of d)) }
    ensures playable { IfOk result IsPlayable }
{
    if desc.len() > TEXT_MOST {
        return say_too_long(alloc);
    }
    match judge(alloc, desc) {
        Ok(plan) => decide_generated(alloc, plan, number),
        Err(fault) => say_unaccepted(alloc, fault),
    }
}

/// What the trace of a name decides for a plan.
fn decide_named<F: Shelf>(
    alloc: Global,
    shelf: &mut F,
    name: &str,
    plan: Plan,
    asked: Asked,
) -> Result<Decided, ReadStop>
    requires accepted { IsAcceptedPlan plan }
    requires numbered { IsNumbered plan }
    ensures { SettlesTrace F.text F.left F.opens F.faults F.failed name.now plan asked shelf.old
        shelf.new result }
{
    match read_text(alloc, shelf, name) {
        Ok(bytes) => Ok(decide_trace(alloc, plan, asked, bytes.as_slice())?),
        Err(stop) => {
            let_go(plan);
            Err(stop)
        }
    }
}

/// What a command on a description decides.
fn decide_described<F: Shelf>(
    alloc: Global,
    shelf: &mut F,
    words: &[String],
    command: Command,
) -> Result<Decided, ReadStop>
    requires spells { Spells (texts_of words.now) command }
    requires named { HasDescription command }
    ensures { Settles F.text F.left F.opens F.faults F.failed (texts_of words.now) shelf.old
        shelf.new result }
{
    let text = read_text(alloc, shelf, words[1].as_str())?;
    let next = lead_text(alloc, command, text.as_slice())?;
    match next {
        Next::Done(decided) => Ok(decided),
        Next::Trace(plan, asked) => decide_named(alloc, shelf, words[2].as_str(), plan, asked),
    }
}

/// What a command decides.
fn decide_command<F: Shelf>(
    alloc: Global,
    shelf: &mut F,
    words: &[String],
    command: Command,
) -> Result<Decided, ReadStop>
    requires { Spells (texts_of words.now) command }
    ensures settles { Settles F.text F.left F.opens F.faults F.failed (texts_of words.now)
        shelf.old shelf.new result }
    ensures generates { (n : ℕ) → command ≡ Do.Gen n
        → (shelf.new ≡ shelf.old) × IfOk result (λ d. IsSummary (decision_of d)) }
{
    match command {
        Command::Gen(number) => Ok(decide_gen(alloc, FULL_EXAMPLE.as_bytes(), number)?),
        Command::I2c(schedule) => decide_alone(alloc, shelf, words, Alone::Bus(schedule)),
        Command::Switch(schedule) => decide_alone(alloc, shelf, words, Alone::Switch(schedule)),
        _ => decide_described(alloc, shelf, words, command),
    }
}

/// What the words decide.
pub fn decide_words<F: Shelf>(
    alloc: Global,
    words: &[String],
    shelf: &mut F,
) -> Result<Decided, ReadStop>
    ensures decides { IfOk result (λ d. Decides (WasRead (F.text shelf.old))
        (texts_of words.now) (decision_of d)) }
    ensures reads { ReadsFrom F.text F.left F.opens F.faults F.failed
        (OpensInTurn (WasRead (F.text shelf.old)) (texts_of words.now))
        (OfEach (ReadLast (F.text shelf.old) (texts_of words.now)))
        shelf.old shelf.new result }
    ensures command { result ≡ Err ReadStop.Failed
        → (command : Command) × Spells (texts_of words.now) command }
    ensures unread { (n : ℕ) → IsGen (texts_of words.now) n → shelf.new ≡ shelf.old }
    ensures plays { (n : ℕ) → IsGen (texts_of words.now) n
        → IfOk result (λ d. IsSummary (decision_of d)) }
    ensures playable { IfOk result IsPlayable }
{
    match read_words(words) {
        Ok(command) => decide_command(alloc, shelf, words, command),
        Err(k) => Ok(say_usage(alloc, k)?),
    }
}
