//! What a description leads to before a trace is read.
ghost use Rattle.std.specs.Prelude.{IfOk};
ghost use Rattle.decision_core.specs.Judged.{IsAcceptedPlan};
ghost use Rattle.decision_core.specs.Leading.{LeadsTo, TextLeadsTo};
ghost use Rattle.decision_core.specs.Naming.{HasDescription};

use crate::deciding::{Decided, say_accepted, say_layout, say_too_long, say_unaccepted};
use crate::judging::{judge, let_go};
use crate::{Asked, Showing};
use cargo_core::Memory;
use command_words::Command;
use sdf_model::TEXT_MOST;
use sdf_plan::Plan;
use std::alloc::Global;

/// What a description leads to.
#[derive(Drop)]
pub enum Next {
    /// It is decided without a trace.
    Done(Decided),
    /// The trace is read, and this is done of it on the plan.
    Trace(Plan, Asked),
}

/// What a command leads to for the plan of a description that is accepted.
fn lead_plan(alloc: Global, command: Command, plan: Plan) -> Result<Next, Memory>
    requires accepted { IsAcceptedPlan plan }
    requires named { HasDescription command }
    ensures { IfOk result (LeadsTo command plan) }
{
    match command {
        Command::Check => {
            let said = say_accepted(alloc, &plan);
            let_go(plan);
            Ok(Next::Done(said?))
        }
        Command::Layout => {
            let said = say_layout(alloc, &plan);
            let_go(plan);
            Ok(Next::Done(said?))
        }
        Command::Play(options) => Ok(Next::Trace(plan, Asked::Play(Showing::Report(options)))),
        Command::Run(steps) => Ok(Next::Trace(plan, Asked::Run(steps))),
        Command::Gen(_) => unreachable!(),
        Command::I2c(_) => unreachable!(),
        Command::Switch(_) => unreachable!(),
    }
}

/// What a command leads to, by the bytes of its description.
pub fn lead_text(alloc: Global, command: Command, text: &[u8]) -> Result<Next, Memory>
    requires { HasDescription command }
    ensures { IfOk result (TextLeadsTo command text.now) }
{
    if text.len() > TEXT_MOST {
        return Ok(Next::Done(say_too_long(alloc)?));
    }
    match judge(alloc, text) {
        Ok(plan) => lead_plan(alloc, command, plan),
        Err(fault) => Ok(Next::Done(say_unaccepted(alloc, fault)?)),
    }
}
