//! What the words of a play that is drawn decide. The description and the trace are read and judged
//! by the main program's own call, and what is played is what it plays.
ghost use Rattle.std.specs.Prelude.{◌≡◌, IfOk};
ghost use Rattle.sdf_plan.specs.Elements.{IsNumbered};
ghost use Rattle.trace_text.specs.Traces.{IsReadFor};
ghost use Rattle.command_words.specs.Words.{texts_of};
ghost use Rattle.decision_core.specs.ShelfCore.Reading.{WasRead};
ghost use Rattle.decision_core.specs.ShelfCore.Shelves.{ReadsFrom};
ghost use Rattle.report_text.specs.Answers.{usage_text};
ghost use Rattle.decision_core.specs.Judged.{IsAcceptedPlan};
ghost use Rattle.view_plays.specs.Deciding.{Refused, ending_of, seed_of, limit_of, decided_of};
ghost use Rattle.view_plays.specs.Deciding.{IsOnPlan, DrawsPlay, IsDrawnOf, RepliesTo};
ghost use Rattle.view_plays.specs.Deciding.{OpensFor, LeavesAny};
ghost use Rattle.command_words.specs.PlayWords.Words.{Spells};
ghost use Rattle.view_plays.specs.ToldPlays.Progress.{IsProgress};

use crate::told_plays::played_told;
use cargo_core::{Bytes, Memory};
use decision_core::{Decided, Status, decide_words};
use expect_core::{Report, budget};
use crate::play_view::draw_play;
use command_words::play_words::{Drawing, Name, Setting, main_words, number_of, read_drawing};
use region_layout::lay_out;
use report_text::write_usage;
use sdf_plan::Plan;
use decision_core::shelf_core::{ReadStop, Shelf, Sink};
use std::alloc::Global;
use trace_text::Trace;

/// An answer as a whole, before any of it is written.
#[derive(Drop)]
pub enum Reply {
    /// What is drawn of a play that was made, which goes to standard output, and how the play
    /// ended: quiet (`Ok`), or with its steps spent.
    Show(Status, Bytes),
    /// A status without a play, and its line, which goes to standard error.
    Refuse(Status, String),
}

// How a play ended, by its report.
fn ending_of(report: &Report) -> Status
    ensures { result ≡ ending_of report.now.quiet report.now.steps }
{
    if report.quiet {
        Status::Ok
    } else {
        Status::Spent(report.steps)
    }
}

// The seed of the picks.
fn seed_of(settings: &[Setting]) -> u64
    ensures { result ≡ seed_of settings.now }
{
    number_of(settings, Name::Seed).unwrap_or(0)
}

// How many steps a play may make: those that the words say, or those that are enough.
fn limit_of(plan: &Plan, trace: &Trace, settings: &[Setting]) -> u64
    requires accepted { IsAcceptedPlan plan.now }
    requires read { IsReadFor plan.now trace.now }
    ensures { result ≡ limit_of plan.now trace.now settings.now }
{
    match number_of(settings, Name::Steps) {
        Some(steps) => steps,
        None => budget(plan, trace),
    }
}

// Plays a trace on a plan, and draws the play.
#[tactic(auto, using(crate::proofs::ToldPlays::SliceLemmas::no_progress))]
fn play<E: Sink>(
    alloc: Global,
    plan: &Plan,
    trace: &Trace,
    drawing: &Drawing,
    err: &mut E,
) -> Result<Reply, Memory>
    requires accepted { IsAcceptedPlan plan.now }
    requires numbered { IsNumbered plan.now }
    requires read { IsReadFor plan.now trace.now }
    ensures drawn { IfOk result (λ reply. IsDrawnOf plan.now trace.now drawing.now
        (decided_of reply)) }
    ensures told { IsProgress E.written err.old err.new }
{
    let layout = lay_out(alloc, plan)?;
    let settings = drawing.settings.as_slice();
    let limit = limit_of(plan, trace, settings);
    let system = played_told(alloc, plan, &layout, trace, seed_of(settings), limit, err)?;
    let report = system.report()?;
    let text = draw_play(alloc, plan, &layout, system.journal(), &report, drawing)?;
    Ok(Reply::Show(ending_of(&report), text))
}

// The words ask for nothing.
fn refuse_words(alloc: Global, place: u32) -> Result<Reply, Memory>
    ensures { IfOk result (λ reply. decided_of reply
        ≡ Refused (Status.Usage place) (usage_text place)) }
{
    let line = write_usage(alloc, place)?;
    Ok(Reply::Refuse(Status::Usage(place), line))
}

// What was decided, and is played where it is a play.
#[tactic(auto, using(crate::proofs::ToldPlays::SliceLemmas::no_progress))]
fn reply_to<E: Sink>(
    alloc: Global,
    decided: Decided,
    drawing: &Drawing,
    err: &mut E,
) -> Result<Reply, Memory>
    requires { IsOnPlan decided }
    ensures replies { IfOk result (λ reply. RepliesTo decided drawing.now (decided_of reply)) }
    ensures told { IsProgress E.written err.old err.new }
{
    match decided {
        Decided::Say(status, line) => Ok(Reply::Refuse(status, line)),
        Decided::Go(plan, trace, _) => play(alloc, &plan, &trace, drawing, err),
        Decided::Bus(_, _) | Decided::Ports(_, _) => unreachable!(),
    }
}

// What the main program decides for a drawing, played where it is a play.
#[tactic(auto, using(crate::proofs::ToldPlays::SliceLemmas::no_progress))]
fn decide_drawing<F: Shelf, E: Sink>(
    alloc: Global,
    words: &[String],
    drawing: &Drawing,
    shelf: &mut F,
    err: &mut E,
) -> Result<Reply, ReadStop>
    requires { Spells (texts_of words.now) drawing.now }
    ensures decides { IfOk result (λ reply. DrawsPlay (WasRead (F.text shelf.old))
        (texts_of words.now) (decided_of reply)) }
    ensures reads { ReadsFrom F.text F.left F.opens F.faults F.failed
        (OpensFor (WasRead (F.text shelf.old)) (texts_of words.now)) LeavesAny
        shelf.old shelf.new result }
    ensures told { IsProgress E.written err.old err.new }
{
    let main = main_words(alloc, words, drawing.settings.as_slice())?;
    let decided = decide_words(alloc, &main, shelf)?;
    Ok(reply_to(alloc, decided, drawing, err)?)
}

/// What words decide that ask for a drawing of a play. The words are judged first, and then the
/// description and the trace are read and judged, as the main program does. While a long play is
/// made, lines of progress are written.
#[tactic(auto, using(crate::proofs::ToldPlays::SliceLemmas::no_progress))]
pub fn decide_play<F: Shelf, E: Sink>(
    alloc: Global,
    words: &[String],
    shelf: &mut F,
    err: &mut E,
) -> Result<Reply, ReadStop>
    ensures decides { IfOk result (λ reply. DrawsPlay (WasRead (F.text shelf.old))
        (texts_of words.now) (decided_of reply)) }
    ensures reads { ReadsFrom F.text F.left F.opens F.faults F.failed
        (OpensFor (WasRead (F.text shelf.old)) (texts_of words.now)) LeavesAny
        shelf.old shelf.new result }
    ensures told { IsProgress E.written err.old err.new }
{
    match read_drawing(alloc, words)? {
        Ok(drawing) => decide_drawing(alloc, words, &drawing, shelf, err),
        Err(place) => Ok(refuse_words(alloc, place)?),
    }
}
