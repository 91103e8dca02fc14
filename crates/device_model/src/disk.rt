//! The disk of the modelled machine. It does requests in their order on its image, and answers
//! each. That a device is an actor at the far ends of its driver's queues is this project's own,
//! and so is that the disk never errs.

ghost use Rattle.std.specs.Prelude.{◌≡◌, ◌<◌, ℕ, List, Some, true, false, is_some, is_none, length};
ghost use Rattle.cargo_core.specs.Bodies.{buffers_of};
ghost use Rattle.wire_core.specs.Deeds.{Cargo};
ghost use Rattle.wire_core.specs.Ends.{role_of, Role, End};
ghost use Rattle.wire_core.specs.Lists.{Passed, Stepped, nothing_passed};
ghost use Rattle.wire_core.specs.Marks.{is_mark};
ghost use Rattle.turn_kit.specs.Turns.{Turned, Posted, choice_of, chosen_place, last_after};
ghost use Rattle.turn_kit.specs.Turns.{is_at_rest};
ghost use Rattle.turn_kit.specs.Posts.{intake_post, outlet_post};
ghost use Rattle.device_model.specs.Disk.Disks.{FitsDisk, DiskStandsFor, DiskRow};
ghost use Rattle.device_model.specs.Disk.Disks.{DiskBalances, DiskEnd, SameDisk, IsNewDisk};
ghost use Rattle.device_model.specs.Disk.Disks.{is_asking, disk_with, disk_round, disk_hand};
ghost use Rattle.device_model.specs.Disk.Disks.{disk_forgotten};

mod serving;

use cargo_core::{Body, Bytes, Item, PoolId};
use serving::{answer_to, is_stray};
use turn_kit::{Intake, Outlet, Turn, count_held};
use wire_core::{Event, QueueId, Wires};

/// The disk. `image` is as the requests that it took left it; `load` is the answer to the last of
/// them, until it is put; `stray` is a request that came out of turn, after which the disk takes
/// and puts no more.
#[derive(Drop)]
pub struct DiskDevice {
    pub input: Intake,
    pub output: Outlet,
    pub image: Bytes,
    pub load: Option<(Item, Body)>,
    pub stray: Option<(Item, Body)>,
    pub turn: Turn,
}

impl DiskDevice {
    /// A disk in its start state, with this image in blocks of 4,096 bytes: it does the requests of
    /// `req` and puts its responses to `resp`.
    pub fn new(req: QueueId, resp: QueueId, image: Bytes) -> DiskDevice
        ensures new { IsNewDisk req resp image result }
        ensures stands { DiskStandsFor image result nothing_passed }
    {
        DiskDevice {
            input: Intake::new(req),
            output: Outlet::new(resp),
            image,
            load: None,
            stray: None,
            turn: Turn::new(),
        }
    }

    // Whether it needs a request.
    fn is_asking(&self) -> bool
        ensures { result ≡ is_asking self.now }
    {
        self.load.is_none() && self.stray.is_none()
    }

    /// Whether nothing is to be done before a notification comes.
    pub fn at_rest(&self) -> bool
        ensures { result ≡ is_at_rest (disk_round self.now) }
    {
        self.input.settled(self.is_asking()) && self.output.settled(self.load.is_some())
    }

    /// How many buffers of a pool are in its hand: that of the answer which it owes, or that of a
    /// request out of turn.
    pub fn held(&self, pool: PoolId) -> u32
        ensures { result ≡ buffers_of pool (disk_hand self.now) }
    {
        count_held(pool, &self.load) + count_held(pool, &self.stray)
    }

    // The end that is stepped now: the input is the first, the output the second.
    fn choose(&mut self) -> usize
        ensures place { result ≡ chosen_place (choice_of (disk_round self.old)) }
        ensures within { result < 2 }
        ensures after { self.new ≡ record self.old {
          turn = record { last = last_after (choice_of (disk_round self.old)) };
        } }
    {
        let asking = self.is_asking();
        let input_settled = self.input.settled(asking);
        let output_settled = self.output.settled(self.load.is_some());
        let choice = self
            .turn
            .begin(2)
            .offer(0, self.input.queue, input_settled)
            .offer(1, self.output.queue, output_settled);
        self.turn.pass(choice)
    }

    // Does a request that came, or keeps it where it is out of turn.
    fn accept(&mut self, entry: (Item, Body))
        ensures after { self.new ≡ disk_with self.old entry }
        ensures size { length self.new.image ≡ length self.old.image }
    {
        if is_stray(self.image.as_slice(), &entry) {
            self.stray = Some(entry);
        } else {
            self.load = Some(answer_to(&mut self.image, entry));
        }
    }

    // The next call of the input. What it takes is done.
    fn step_input<W: Wires>(&mut self, wires: &mut W) -> Event
        requires { FitsDisk (W.ends wires.old) self.old }
        ensures fits { FitsDisk (W.ends wires.new) self.new }
        ensures own { DiskEnd self.old (role_of result.op) result.queue.0 }
        ensures same { SameDisk self.old self.new }
        ensures stepped { (start : List ℕ) → Stepped (DiskStandsFor start) W.did wires.old wires.new
            self.old self.new result }
        ensures posted { Posted (intake_post self.old.input) (is_asking self.old) result
            (intake_post self.new.input) }
        ensures load { is_mark result.op result.answer ≡ false → self.new.load ≡ self.old.load }
        ensures stray { is_mark result.op result.answer ≡ false → self.new.stray ≡ self.old.stray }
        ensures output { self.new.output ≡ self.old.output }
        ensures turn { self.new.turn ≡ self.old.turn }
    {
        let need = self.is_asking();
        let (event, got) = self.input.step(wires, need);
        if let Some(entry) = got {
            self.accept(entry);
        }
        event
    }

    // The next call of the output, which puts the answer.
    fn step_output<W: Wires>(&mut self, wires: &mut W) -> Event
        requires { FitsDisk (W.ends wires.old) self.old }
        ensures fits { FitsDisk (W.ends wires.new) self.new }
        ensures own { DiskEnd self.old (role_of result.op) result.queue.0 }
        ensures same { SameDisk self.old self.new }
        ensures stepped { (start : List ℕ) → Stepped (DiskStandsFor start) W.did wires.old wires.new
            self.old self.new result }
        ensures posted { Posted (outlet_post self.old.output) (is_some self.old.load) result
            (outlet_post self.new.output) }
        ensures load { is_mark result.op result.answer ≡ false → self.new.load ≡ self.old.load }
        ensures others { self.new ≡ record self.old
            { output = self.new.output; load = self.new.load } }
    {
        self.output.step(wires, &mut self.load)
    }

    /// Makes one call on one of its ends.
    #[inline(never)]
    pub fn step<W: Wires>(&mut self, wires: &mut W) -> Event
        requires { FitsDisk (W.ends wires.old) self.old }
        ensures fits { FitsDisk (W.ends wires.new) self.new }
        ensures own { DiskEnd self.old (role_of result.op) result.queue.0 }
        ensures same { SameDisk self.old self.new }
        ensures stepped { (start : List ℕ) → Stepped (DiskStandsFor start) W.did wires.old wires.new
            self.old self.new result }
        ensures turned { Turned (disk_round self.old) result (disk_round self.new) }
    {
        match self.choose() {
            0 => self.step_input(wires),
            1 => self.step_output(wires),
            _ => unreachable!(),
        }
    }

    /// Discards the last look of each end, and nothing else.
    pub fn forget(&mut self)
        ensures after { self.new ≡ disk_forgotten self.old }
        ensures same { SameDisk self.old self.new }
        ensures fits { (ends : Role → ℕ → End) → FitsDisk ends self.old → FitsDisk ends self.new }
        ensures lists { (start : List ℕ) (passed : Passed) → DiskStandsFor start self.old passed
            → DiskStandsFor start self.new passed }
    {
        self.input.forget();
        self.output.forget();
    }
}

/// Whatever it stands for meets its row.
pub fn row_law()
    ensures { (start : List ℕ) (d : DiskDevice) (passed : Passed) → DiskStandsFor start d passed
        → DiskRow start d passed }
{}

/// What came and did not go out is in its hand.
pub fn hand_law()
    ensures { (start : List ℕ) (d : DiskDevice) (passed : Passed) → DiskStandsFor start d passed
        → DiskBalances d passed }
{}
