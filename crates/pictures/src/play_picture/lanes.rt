//! The lanes and steps of a chart.
ghost use Rattle.std.specs.Prelude.{◌≡◌, ◌<◌, ◌≤◌, ◌+◌, ◌^◌};
ghost use Rattle.pictures.specs.PlayPicture.Lanes.{lane_width, lane_x, middle_x, step_y, width, height};
ghost use Rattle.pictures.specs.PlayPicture.Lanes.{IsSmall};

/// How many letters the longest label of a step and the longest name of an actor have, how many
/// actors there are, the first step, and the step behind the last.
#[derive(Clone, Copy, Debug)]
pub struct Lanes {
    pub label: u64,
    pub letters: u64,
    pub actors: u64,
    pub from: u64,
    pub to: u64,
}

impl Lanes {
    /// How wide a lane is.
    pub fn lane_width(&self) -> u64
        requires small { IsSmall self.now }
        ensures { result ≡ lane_width self.now }
    {
        8 * self.letters + 16
    }

    /// Where a lane begins.
    #[tactic(auto, using(crate::proofs::PlayPicture::LaneLemmas::small_product))]
    pub fn lane_x(&self, actor: u64) -> u64
        requires small { IsSmall self.now }
        requires lanes { actor ≤ 65536 }
        ensures place { result ≡ lane_x self.now actor }
        ensures near { result ≤ 600000000 }
    {
        let across = self.lane_width() * actor;
        8 * self.label + 32 + across
    }

    /// The middle of a lane.
    pub fn middle_x(&self, actor: u64) -> u64
        requires small { IsSmall self.now }
        requires lanes { actor ≤ 65536 }
        ensures place { result ≡ middle_x self.now actor }
        ensures near { result ≤ 700000000 }
        ensures far { 32 ≤ result }
    {
        self.lane_x(actor) + 4 * self.letters + 4
    }

    /// The row of a step.
    pub fn step_y(&self, step: u64) -> u64
        requires small { IsSmall self.now }
        requires rows { step < 2 ^ 32 }
        ensures { result ≡ step_y self.now step }
    {
        112 + 14 * step.saturating_sub(self.from)
    }

    /// How wide the chart is.
    pub fn width(&self) -> u64
        requires small { IsSmall self.now }
        ensures { result ≡ width self.now }
    {
        self.lane_x(self.actors) + 200
    }

    /// How high it is.
    pub fn height(&self) -> u64
        requires small { IsSmall self.now }
        ensures { result ≡ height self.now }
    {
        self.step_y(self.to) + 16
    }
}
