//! The whole block class at the layout's queues. At any moment nothing comes out of turn there, and
//! its actors have of each pool what the table of owners says. Where nobody is runnable, everything
//! was asked, and everything is answered.
#![tactic(auto)]

ghost use Rattle.std.specs.Prelude.{List};
ghost use Rattle.wire_core.specs.declared.names.QueueRow.{QueueRow};
ghost use Rattle.wire_core.specs.declared.names.Entry.{Entry};
ghost use Rattle.wire_core.specs.Journal.{History, Hostiles};
ghost use Rattle.play_core.specs.Moved.{moved};
ghost use Rattle.play_core.specs.Sheets.{Scene};
ghost use Rattle.play_core.specs.Still.{IsStill};
ghost use Rattle.play_core.specs.Wants.{Needful};
ghost use Rattle.blk_law.specs.Sheets.Numbers.{BlkPlace};
ghost use Rattle.blk_quiet.specs.Still.{IsBlock, AnswersAll};

pub mod cast;
pub mod lengths;
pub mod pools;

/// Where nobody is runnable, each client put all its requests and took a response to each.
pub fn still_law()
    ensures { (hostile : Hostiles) (history : History) (rows : List QueueRow) (actors : Needful)
        (journal : List Entry) (scene : Scene) (place : BlkPlace)
        → IsStill hostile history rows actors journal
        → IsBlock hostile scene rows actors place (moved history journal)
        → AnswersAll scene place (moved history journal) }
{}
