//! What the words ask for, as a value: the program above has one case for each command.

/// The most steps that `--steps` may set; this project's own.
pub const MOST_STEPS: u64 = 268_435_456;

/// What the words ask for. The names of the texts are the words behind the first: the description's
/// name is word 1, and the trace's is word 2, or word 1 where there is no description.
#[derive(Clone, Copy, Debug, PartialEq, Eq)]
pub enum Command {
    /// `check DESC`: to judge a description.
    Check,
    /// `layout DESC`: to show where the regions of a description lie.
    Layout,
    /// `play DESC TRACE`, with options: to play a trace on a description.
    Play(Options),
    /// `run DESC TRACE`, with a limit of steps, from 1 to `MOST_STEPS`, or `None`: to run each
    /// actor of a description in a thread.
    Run(Option<u64>),
    /// `gen N`: to play the full example on the trace that a number below 2^64 generates.
    Gen(u64),
    /// `i2c TRACE`, with a schedule: to play a bus that clients share by claims. The name of the one
    /// text is word 1.
    I2c(Schedule),
    /// `switch TRACE`, with a schedule: to play a switch between clients. The name of the one text
    /// is word 1.
    Switch(Schedule),
}

/// What the options of `i2c` and `switch` set.
#[derive(Clone, Copy, Debug, PartialEq, Eq)]
pub struct Schedule {
    /// The seed of the picks, below 2^64; 0 without `--seed`.
    pub seed: u64,
    /// The limit of steps, from 1 to `MOST_STEPS`; `None` without `--steps`.
    pub steps: Option<u64>,
}

/// What the options of `play` set.
#[derive(Clone, Copy, Debug, PartialEq, Eq)]
pub struct Options {
    /// The seed of the picks, below 2^64; 0 without `--seed`.
    pub seed: u64,
    /// The limit of steps, from 1 to `MOST_STEPS`; `None` without `--steps`.
    pub steps: Option<u64>,
    /// Whether the journal is written behind the report.
    pub journal: bool,
}
