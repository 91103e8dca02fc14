//! What plays came to.

/// How many bytes a client recorded in plays, at least and at most, and how many the trace gives it.
#[derive(Clone, Copy)]
pub struct Range {
    pub least: usize,
    pub most: usize,
    pub came: usize,
}

/// How many plays there were, how many of them were right, how many were to get quiet, how many of
/// those got quiet, whether a byte was dropped in any, the first that was wrong, and how many bytes
/// each of eight clients recorded.
#[derive(Clone, Copy)]
pub struct Tally {
    pub plays: u64,
    pub right: u64,
    pub ample: u64,
    pub quiet: u64,
    pub dropped: bool,
    pub wrong: Option<u64>,
    pub ranges: [Range; 8],
}

impl Tally {
    /// No play yet.
    pub fn new() -> Tally {
        let none = Range {
            least: usize::MAX,
            most: 0,
            came: 0,
        };
        Tally {
            plays: 0,
            right: 0,
            ample: 0,
            quiet: 0,
            dropped: false,
            wrong: None,
            ranges: [none; 8],
        }
    }

    /// Adds the play of a number.
    pub fn add(&mut self, number: u64, right: bool) {
        self.plays = self.plays.saturating_add(1);
        self.right = self.right.saturating_add(u64::from(right));
        if !right && self.wrong.is_none() {
            self.wrong = Some(number);
        }
    }

    /// Adds whether a play got quiet that was to.
    pub fn add_ample(&mut self, quiet: bool) {
        self.ample = self.ample.saturating_add(1);
        self.quiet = self.quiet.saturating_add(u64::from(quiet));
    }

    /// Adds how many bytes a client recorded of those that the trace gives it, and whether one of
    /// them was dropped.
    pub fn add_record(&mut self, client: usize, recorded: usize, came: usize, dropped: bool) {
        self.dropped = self.dropped || dropped;
        if client < 8 {
            let Range { least, most, .. } = self.ranges[client];
            self.ranges[client] = Range {
                least: least.min(recorded),
                most: most.max(recorded),
                came,
            };
        }
    }
}
