//! How full a queue is after so many steps, for how many more it stays so, and where that is drawn.
ghost use Rattle.std.specs.Prelude.{◌≡◌, ◌≤◌, ◌<◌, ◌^◌, ◌*◌, length, IfOk, string_bytes};
ghost use Rattle.pictures.specs.PlayPicture.FillPicture.Fills.{level, first_of, span, changes, step_width, fill_left};
ghost use Rattle.pictures.specs.PlayPicture.FillPicture.Fills.{step_x, fill_y, bar_height, bar_note, IsSmallFills};

use crate::play_picture::{Way, count, moves, place_of_nth};
use cargo_core::Memory;
use std::alloc::Global;
use wire_core::Entry;

/// How many letters the longest label has, the first step, and the step behind the last.
#[derive(Clone, Copy, Debug)]
pub struct Fills {
    pub label: u64,
    pub from: u64,
    pub to: u64,
}

/// How many entries a queue holds after so many steps.
#[tactic(auto, unfolding(crate::specs::PlayPicture::FillPicture::Fills::level))]
pub fn level(journal: &[Entry], queue: usize, k: usize) -> usize
    requires { k ≤ length journal.now }
    ensures entries { result ≡ level journal.now queue k }
    ensures within { result ≤ length journal.now }
{
    let before = &journal[..k];
    count(Way::Put, queue, before).saturating_sub(count(Way::Take, queue, before))
}

// The first entry that moves one of a queue in this way, or the end.
fn first_of(way: Way, queue: usize, journal: &[Entry]) -> usize
    ensures place { result ≡ first_of way queue journal.now }
    ensures within { result ≤ length journal.now }
{
    let end = journal.len();
    place_of_nth(way, queue, 0, journal).unwrap_or(end).min(end)
}

/// For how many steps from one on a queue stays as full.
#[tactic(auto, unfolding(crate::specs::PlayPicture::FillPicture::Fills::span))]
pub fn span(journal: &[Entry], queue: usize, k: usize) -> usize
    requires { k ≤ length journal.now }
    ensures steps { result ≡ span journal.now queue k }
    ensures within { result ≤ length journal.now }
{
    let rest = &journal[k..];
    first_of(Way::Put, queue, rest).min(first_of(Way::Take, queue, rest))
}

/// Whether an entry changes how full a queue is.
pub fn changes(queue: usize, entry: &Entry) -> bool
    ensures { result ≡ changes queue entry.now }
{
    moves(Way::Put, queue, entry) || moves(Way::Take, queue, entry)
}

/// The row of a queue.
pub fn fill_y(q: u64) -> u64
    requires { q ≤ 2 ^ 40 }
    ensures row { result ≡ fill_y q }
    ensures below { 56 ≤ result }
    ensures near { result ≤ 2 ^ 47 }
{
    56 + 40 * q
}

/// How high a bar is.
#[tactic(auto, unfolding(crate::specs::PlayPicture::FillPicture::Fills::bar_height))]
pub fn bar_height(capacity: u32, held: usize) -> u64
    requires { held < 2 ^ 32 }
    ensures height { result ≡ bar_height capacity held }
    ensures within { result ≤ 28 }
{
    let most = (capacity as u64).max(1);
    (28 * (held as u64) / most).min(28).max(1)
}

/// What is said of a bar.
pub fn bar_note(alloc: Global, capacity: u32, held: usize, k: usize) -> Result<String, Memory>
    ensures { IfOk result (λ note. string_bytes note ≡ bar_note capacity held k) }
{
    let mut note = format!(in alloc; "{held} of {capacity}")?;
    write!(note, " from step {k}")?;
    Ok(note)
}

impl Fills {
    /// How many pixels a step takes.
    #[tactic(auto, unfolding(crate::specs::PlayPicture::FillPicture::Fills::step_width))]
    pub fn step_width(&self) -> u64
        requires { IsSmallFills self.now }
        ensures width { result ≡ step_width self.now }
        ensures small { result ≤ 1000 }
    {
        (1000 / (self.to - self.from).max(1)).max(1)
    }

    /// How many pixels so many steps take.
    #[tactic(auto, using(crate::proofs::PlayPicture::FillPicture::StepLemmas::small_steps))]
    pub fn steps_width(&self, steps: u64) -> u64
        requires small { IsSmallFills self.now }
        requires few { steps < 2 ^ 32 }
        ensures width { result ≡ step_width self.now * steps }
        ensures near { result ≤ 4294967296000 }
    {
        self.step_width() * steps
    }

    /// Where the frames begin.
    pub fn fill_left(&self) -> u64
        requires { IsSmallFills self.now }
        ensures left { result ≡ fill_left self.now }
        ensures near { result ≤ 10000 }
    {
        8 * self.label + 32
    }

    /// Where the time before a step is.
    #[tactic(auto, unfolding(crate::specs::PlayPicture::FillPicture::Fills::step_x))]
    pub fn step_x(&self, k: u64) -> u64
        requires small { IsSmallFills self.now }
        requires few { k < 2 ^ 32 }
        ensures { result ≡ step_x self.now k }
    {
        self.fill_left() + self.steps_width(k.saturating_sub(self.from))
    }
}
