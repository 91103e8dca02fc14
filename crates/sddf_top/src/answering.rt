//! The answer to the words, which is whole before any of it is written.
ghost use Rattle.std.specs.Prelude.{◌≡◌, Err, IfOk, ℕ, string_bytes};
ghost use Rattle.command_words.specs.declared.command.Command.{Command};
ghost use Rattle.command_words.specs.Words.{texts_of, IsGen, Spells, BeginsRun};
ghost use Rattle.decision_core.specs.ShelfCore.Shelves.{ReadsFrom};
ghost use Rattle.decision_core.specs.Decided.{decision_of, IsSound, AsksToRun};
ghost use Rattle.sddf_top.specs.Outcomes.{Follows, FollowsBy, EndsAfter};
ghost use Rattle.decision_core.specs.Decisions.{Decides, PlayBus, PlayPorts};
ghost use Rattle.i2c_text.specs.Buses.{IsReadBus};
ghost use Rattle.line_text.specs.PortsText.Given.{ArePorts};
ghost use Rattle.decision_core.specs.ShelfCore.Reading.{WasRead};
ghost use Rattle.decision_core.specs.Readings.{ReadLast, OpensInTurn};

use crate::Played;
use crate::alone::{play_one_bus, play_one_switch};
use crate::playing::{play, run};
use cargo_core::Memory;
use command_words::Schedule;
use decision_core::shelf_core::{ReadStop, Shelf};
use decision_core::{Asked, Decided, Status, decide_words};
use i2c_text::Bus;
use line_text::ports_text::Ports;
use pd_runner::Gate;
use sdf_plan::Plan;
use std::alloc::Global;
use std::sync::Wait;
use std::thread::Threads;
use trace_text::Trace;

/// An answer as a whole, before any of it is written.
#[derive(Drop)]
pub struct Outcome {
    pub status: Status,
    pub text: String,
    pub played: Played,
}

impl Outcome {
    /// An answer that plays nothing.
    fn of(status: Status, text: String) -> Outcome
        ensures status { result.status ≡ status }
        ensures text { string_bytes result.text ≡ string_bytes text }
        ensures played { result.played ≡ Played.Nothing }
    {
        Outcome {
            status,
            text,
            played: Played::Nothing,
        }
    }
}

/// Lets a plan and a trace go. They have many parts, each of which is freed by itself: so this
/// stands once.
fn let_go(_plan: Plan, _trace: Trace) {}

/// The answer of a play of a bus, which is let go.
fn answer_bus(alloc: Global, bus: Bus, schedule: Schedule) -> Result<Outcome, Memory>
    requires { IsReadBus bus }
    ensures { IfOk result (Follows (PlayBus bus schedule)) }
{
    play_one_bus(alloc, &bus, schedule)
}

/// The answer of a play of a switch, whose ports are let go.
fn answer_ports(alloc: Global, ports: Ports, schedule: Schedule) -> Result<Outcome, Memory>
    requires { ArePorts ports }
    ensures { IfOk result (Follows (PlayPorts ports schedule)) }
{
    play_one_switch(alloc, &ports, schedule)
}

/// The answer of what was decided, where no thread is asked for.
fn answer_alone(alloc: Global, decided: Decided) -> Result<Outcome, Memory>
    requires sound { IsSound decided }
    requires alone { AsksToRun decided → ⊥ }
    ensures { IfOk result (Follows (decision_of decided)) }
{
    match decided {
        Decided::Say(status, text) => Ok(Outcome::of(status, text)),
        Decided::Go(plan, trace, asked) => match asked {
            Asked::Play(showing) => {
                let answer = play(alloc, &plan, &trace, showing);
                let_go(plan, trace);
                answer
            }
            Asked::Run(_) => unreachable!(),
        },
        Decided::Bus(bus, schedule) => answer_bus(alloc, bus, schedule),
        Decided::Ports(ports, schedule) => answer_ports(alloc, ports, schedule),
    }
}

/// The answer of what was decided.
fn answer<R: Threads + Wait + Sync, G: Gate + Sync>(
    rt: &R,
    alloc: Global,
    decided: Decided,
    gate: &G,
) -> Result<Outcome, Memory>
    requires sound { IsSound decided }
    ensures { IfOk result (Follows (decision_of decided)) }
{
    match decided {
        Decided::Say(status, text) => Ok(Outcome::of(status, text)),
        Decided::Go(plan, trace, asked) => match asked {
            Asked::Play(showing) => {
                let answer = play(alloc, &plan, &trace, showing);
                let_go(plan, trace);
                answer
            }
            Asked::Run(steps) => {
                let answer = run(rt, alloc, &plan, &trace, steps, gate);
                let_go(plan, trace);
                answer
            }
        },
        Decided::Bus(bus, schedule) => answer_bus(alloc, bus, schedule),
        Decided::Ports(ports, schedule) => answer_ports(alloc, ports, schedule),
    }
}

/// The answer to words of which the first isn't `run`.
pub fn answer_words_alone<F: Shelf>(
    alloc: Global,
    words: &[String],
    shelf: &mut F,
) -> Result<Outcome, ReadStop>
    requires { BeginsRun (texts_of words.now) → ⊥ }
    ensures answer { IfOk result (FollowsBy (Decides (WasRead (F.text shelf.old))
        (texts_of words.now))) }
    ensures reads { ReadsFrom F.text F.left F.opens F.faults F.failed
        (OpensInTurn (WasRead (F.text shelf.old)) (texts_of words.now))
        (EndsAfter (ReadLast (F.text shelf.old) (texts_of words.now)))
        shelf.old shelf.new result }
    ensures command { result ≡ Err ReadStop.Failed
        → (command : Command) × Spells (texts_of words.now) command }
    ensures unread { (n : ℕ) → IsGen (texts_of words.now) n → shelf.new ≡ shelf.old }
{
    let decided = decide_words(alloc, words, shelf)?;
    Ok(answer_alone(alloc, decided)?)
}

/// The answer to words.
pub fn answer_words<R: Threads + Wait + Sync, F: Shelf, G: Gate + Sync>(
    rt: &R,
    alloc: Global,
    words: &[String],
    shelf: &mut F,
    gate: &G,
) -> Result<Outcome, ReadStop>
    ensures answer { IfOk result (FollowsBy (Decides (WasRead (F.text shelf.old))
        (texts_of words.now))) }
    ensures reads { ReadsFrom F.text F.left F.opens F.faults F.failed
        (OpensInTurn (WasRead (F.text shelf.old)) (texts_of words.now))
        (EndsAfter (ReadLast (F.text shelf.old) (texts_of words.now)))
        shelf.old shelf.new result }
    ensures command { result ≡ Err ReadStop.Failed
        → (command : Command) × Spells (texts_of words.now) command }
    ensures unread { (n : ℕ) → IsGen (texts_of words.now) n → shelf.new ≡ shelf.old }
{
    let decided = decide_words(alloc, words, shelf)?;
    Ok(answer(rt, alloc, decided, gate)?)
}
