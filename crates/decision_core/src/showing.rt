//! What is asked of a trace on a description, or of one text alone: how steps are picked and
//! limited, and what is shown.
use command_words::{Options, Schedule};

/// What is asked of a play.
#[derive(Clone, Copy, Debug, PartialEq, Eq)]
pub enum Showing {
    /// What the options of `play` say.
    Report(Options),
    /// Seed 0, as many steps as are enough, and the summary of the report alone.
    Summary,
}

/// What is asked of a trace.
#[derive(Clone, Copy, Debug, PartialEq, Eq)]
pub enum Asked {
    /// To play it.
    Play(Showing),
    /// To run it with a thread for each actor, with a limit of steps or as many as are enough, and
    /// to show the report.
    Run(Option<u64>),
}

/// What is asked of one text alone.
#[derive(Clone, Copy, Debug, PartialEq, Eq)]
pub enum Alone {
    /// To play the bus that it tells.
    Bus(Schedule),
    /// To play the switch whose ports it tells.
    Switch(Schedule),
}
