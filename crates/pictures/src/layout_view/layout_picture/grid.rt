//! The columns and rows of a picture.
ghost use Rattle.std.specs.Prelude.{◌≡◌, ◌<◌, ◌≤◌, ◌+◌, ◌^◌};
ghost use Rattle.pictures.specs.LayoutView.LayoutPicture.Grid.{box_width, left, column_x, middle_x, queue_y};
ghost use Rattle.pictures.specs.LayoutView.LayoutPicture.Grid.{channel_y, region_y, width, height, IsSmall};
ghost use Rattle.pictures.specs.LayoutView.LayoutPicture.Grid.{place_x, memory_width};

/// Where the boxes begin, from above.
pub const BOX_TOP: u64 = 48;

/// How high a box is.
pub const BOX_HEIGHT: u64 = 68;

/// How many letters the longest label of a queue, the longest place of one and the longest name in
/// a box have, and how many columns, queues, channels, regions and pools there are.
#[derive(Clone, Copy, Debug)]
pub struct Grid {
    pub label: u64,
    pub place: u64,
    pub letters: u64,
    pub columns: u64,
    pub queues: u64,
    pub channels: u64,
    pub regions: u64,
    pub pools: u64,
}

impl Grid {
    /// How wide a box is.
    pub fn box_width(&self) -> u64
        requires small { IsSmall self.now }
        ensures { result ≡ box_width self.now }
    {
        8 * self.letters + 16
    }

    /// Where the places of queues are written.
    pub fn place_x(&self) -> u64
        requires small { IsSmall self.now }
        ensures { result ≡ place_x self.now }
    {
        8 * self.label + 32
    }

    /// Where the columns begin.
    pub fn left(&self) -> u64
        requires small { IsSmall self.now }
        ensures { result ≡ left self.now }
    {
        self.place_x() + 8 * self.place + 16
    }

    /// Where a column begins.
    #[tactic(auto, using(crate::proofs::LayoutView::LayoutPicture::GridLemmas::small_product))]
    pub fn column_x(&self, k: u64) -> u64
        requires small { IsSmall self.now }
        requires columns { k ≤ 2 ^ 40 }
        ensures place { result ≡ column_x self.now k }
        ensures near { result ≤ 10000000000000000 }
    {
        let step = 8 * self.letters + 32;
        let across = step * k;
        self.left() + across
    }

    /// The middle of a column.
    pub fn middle_x(&self, k: u64) -> u64
        requires small { IsSmall self.now }
        requires columns { k ≤ 2 ^ 40 }
        ensures place { result ≡ middle_x self.now k }
        ensures near { result ≤ 20000000000000000 }
    {
        self.column_x(k) + 4 * self.letters + 8
    }

    /// The row of a queue.
    pub fn queue_y(&self, q: u64) -> u64
        requires { q ≤ 2 ^ 40 }
        ensures { result ≡ queue_y q }
    {
        176 + 24 * q
    }

    /// The row of a channel.
    pub fn channel_y(&self, c: u64) -> u64
        requires small { IsSmall self.now }
        requires rows { c ≤ 2 ^ 40 }
        ensures { result ≡ channel_y self.now c }
    {
        224 + 24 * (self.queues + c)
    }

    /// The row of a region.
    pub fn region_y(&self, r: u64) -> u64
        requires small { IsSmall self.now }
        requires rows { r ≤ 2 ^ 40 }
        ensures { result ≡ region_y self.now r }
    {
        272 + 24 * (self.queues + self.channels + r)
    }

    // How wide the rows of regions are.
    fn memory_width(&self) -> u64
        requires small { IsSmall self.now }
        ensures width { result ≡ memory_width self.now }
        ensures near { result ≤ 10000 }
    {
        if self.pools == 0 {
            600
        } else {
            8 * self.letters + 944
        }
    }

    /// How wide the picture is.
    pub fn width(&self) -> u64
        requires small { IsSmall self.now }
        ensures { result ≡ width self.now }
    {
        let columns = self.column_x(self.columns);
        let memory = self.left() + self.memory_width();
        columns.max(memory)
    }

    /// How high the picture is.
    pub fn height(&self) -> u64
        requires small { IsSmall self.now }
        ensures { result ≡ height self.now }
    {
        self.region_y(self.regions) + 16
    }
}
