//! The copier of a network client: it copies each leased frame into one of the client's own
//! buffers. That a client has a copier is sDDF's; the order of its turns is this project's own.
#![tactic(auto)]

ghost use Rattle.std.specs.Prelude.{◌≡◌, ◌<◌, ◌≤◌, ◌&&◌, ℕ, List, Some, true, false, is_none};
ghost use Rattle.std.specs.Prelude.{is_some, length};
ghost use Rattle.cargo_core.specs.Bodies.{buffers_of};
ghost use Rattle.wire_core.specs.Deeds.{Cargo};
ghost use Rattle.wire_core.specs.Ends.{role_of, Role, Consumer, End};
ghost use Rattle.wire_core.specs.Lists.{Passed, Stepped, nothing_passed};
ghost use Rattle.wire_core.specs.Marks.{is_mark};
ghost use Rattle.wire_core.specs.Fates.{marked, noes_at, is_vain_at};
ghost use Rattle.turn_kit.specs.Turns.{Turned, Posted, choice_of, chosen_place, last_after};
ghost use Rattle.turn_kit.specs.Turns.{is_at_rest, is_drop, is_mark_at};
ghost use Rattle.turn_kit.specs.Posts.{intake_post, outlet_post};
ghost use Rattle.net_copier.specs.Copying.{FitsCopier, CopierStandsFor, CopierRow, CopierBalances};
ghost use Rattle.net_copier.specs.Copying.{CopierEnd, SameCopier, IsNewCopier, SameWork, IsAt};
ghost use Rattle.net_copier.specs.Copying.{IsWork, is_copied, leased_bytes, is_stray, is_wanting};
ghost use Rattle.net_copier.specs.Copying.{is_returning, copier_round, copier_hand, buffer_post};
ghost use Rattle.net_copier.specs.Copying.{copier_forgotten, leases_dropped};
ghost use Rattle.net_copier.specs.Copying.{HoldingCopierStands, HoldingCopierRow};
ghost use Rattle.net_copier.specs.Copying.{holding_copier_round};

use buffer_kit::fill;
use cargo_core::{Body, Item, PoolId};
use turn_kit::{Intake, Outlet, Turn, count_held, take_or_drop};
use wire_core::{Event, QueueId, Wires};

/// The most bytes that a lease can have, since the length of an entry has 16 bits.
const LONGEST: usize = 65_535;

/// How far a copier is with the entry of leases that it has.
#[derive(Clone, Copy, Debug, PartialEq, Eq)]
pub enum Stage {
    /// Its bytes aren't in a client's buffer that was put.
    Taken,
    /// The buffer was put or the frame dropped, and the lease is to be given back.
    Copied,
    /// It is no lease, or one that is too long. The copier takes and puts no more.
    Stray,
}

// The bytes that may be read by an entry's lease.
fn leased(entry: &(Item, Body)) -> &[u8]
    ensures bytes { result.now ≡ leased_bytes entry.now }
    ensures short { is_stray entry.now ≡ false → length result.now < 65536 }
{
    match entry {
        (_, Body::Lease(lease)) => lease.bytes(),
        _ => &[],
    }
}

// How far a copier is that took this entry of leases.
fn stage_of(entry: &(Item, Body)) -> Stage
    ensures at { IsAt result entry.now }
    ensures new { is_copied result ≡ false }
{
    match entry {
        (_, Body::Lease(lease)) if lease.bytes().len() <= LONGEST => Stage::Taken,
        _ => Stage::Stray,
    }
}

/// Copies leased frames into a client's buffers. It takes a buffer only while it has a lease, and
/// gives the lease back when the buffer is put. `stage` says how far it is with `lease`; `buffer`
/// is filled, and is to be put. Where it `drops`, it drops the frame of its lease in place of
/// waiting for a buffer.
#[derive(Drop)]
pub struct NetCopier {
    pub lease_input: Intake,
    pub buffer_input: Intake,
    pub buffer_output: Outlet,
    pub lease_output: Outlet,
    pub lease: Option<(Item, Body)>,
    pub stage: Stage,
    pub buffer: Option<(Item, Body)>,
    pub drops: bool,
    pub turn: Turn,
}

impl NetCopier {
    /// A copier in its start state, which has no lease.
    pub fn new(
        lease_active: QueueId,
        lease_free: QueueId,
        rx_active: QueueId,
        rx_free: QueueId,
        drops: bool,
    ) -> NetCopier
        ensures new { IsNewCopier lease_active lease_free rx_active rx_free drops result }
        ensures stands { CopierStandsFor result nothing_passed }
    {
        NetCopier {
            lease_input: Intake::new(lease_active),
            buffer_input: Intake::new(rx_free),
            buffer_output: Outlet::new(rx_active),
            lease_output: Outlet::new(lease_free),
            lease: None,
            stage: Stage::Taken,
            buffer: None,
            drops,
            turn: Turn::new(),
        }
    }

    // Whether it has a lease, and took no buffer for it.
    fn is_wanting(&self) -> bool
        ensures { result ≡ is_wanting self.now }
    {
        self.lease.is_some() && self.buffer.is_none() && self.stage == Stage::Taken
    }

    // Whether it owes the lease.
    fn is_returning(&self) -> bool
        ensures { result ≡ is_returning self.now }
    {
        self.lease.is_some() && self.stage == Stage::Copied
    }

    // The bytes of the lease.
    fn bytes(&self) -> &[u8]
        requires { IsWork self.now }
        ensures bytes { (x : Cargo) → self.now.lease ≡ Some x → result.now ≡ leased_bytes x }
        ensures short { is_wanting self.now ≡ true → length result.now < 65536 }
    {
        match &self.lease {
            Some(lease) => leased(lease),
            None => &[],
        }
    }

    /// Whether nothing is to be done before a notification comes.
    pub fn at_rest(&self) -> bool
        ensures { result ≡ is_at_rest (copier_round self.now) }
    {
        self.lease_input.settled(self.lease.is_none())
            && self.buffer_input.settled(self.is_wanting())
            && self.buffer_output.settled(self.buffer.is_some())
            && self.lease_output.settled(self.is_returning())
    }

    /// How many buffers of a pool are in its hand: a client's buffer that it filled, or one that
    /// came out of turn.
    pub fn held(&self, pool: PoolId) -> u32
        ensures { result ≡ buffers_of pool (copier_hand self.now) }
    {
        count_held(pool, &self.lease) + count_held(pool, &self.buffer)
    }

    // The end that is stepped now, in the order of leases in, buffers in, buffers out, leases out.
    fn choose(&mut self) -> usize
        ensures place { result ≡ chosen_place (choice_of (copier_round self.old)) }
        ensures within { result < 4 }
        ensures after { self.new ≡ record self.old {
          turn = record {
            last = last_after (choice_of
                (copier_round self.old));
          };
        } }
    {
        let leases_settled = self.lease_input.settled(self.lease.is_none());
        let wanting = self.is_wanting();
        let buffers_settled = self.buffer_input.settled(wanting);
        let filled_settled = self.buffer_output.settled(self.buffer.is_some());
        let returning = self.is_returning();
        let copied_settled = self.lease_output.settled(returning);
        let choice = self
            .turn
            .begin(4)
            .offer(0, self.lease_input.queue, leases_settled)
            .offer(1, self.buffer_input.queue, buffers_settled)
            .offer(2, self.buffer_output.queue, filled_settled)
            .offer(3, self.lease_output.queue, copied_settled);
        self.turn.pass(choice)
    }

    // The next call where leases come.
    fn step_lease_input<W: Wires>(&mut self, wires: &mut W) -> Event
        requires { FitsCopier (W.ends wires.old) self.old }
        ensures fits { FitsCopier (W.ends wires.new) self.new }
        ensures own { CopierEnd self.old (role_of result.op) result.queue.0 }
        ensures same { SameCopier self.old self.new }
        ensures stepped { Stepped CopierStandsFor W.did wires.old wires.new
            self.old self.new result }
        ensures posted { Posted (intake_post self.old.lease_input)
            (is_none self.old.lease) result (intake_post self.new.lease_input) }
        ensures still { is_mark result.op result.answer ≡ false → SameWork self.old self.new }
        ensures others { self.new ≡ record self.old
            { lease_input = self.new.lease_input; lease = self.new.lease; stage = self.new.stage } }
    {
        let (event, got) = self.lease_input.step(wires, self.lease.is_none());
        if let Some(entry) = got {
            self.stage = stage_of(&entry);
            self.lease = Some(entry);
        }
        event
    }

    // The next call where the client's buffers come. What it takes is filled; where none is there,
    // the frame may be dropped.
    fn step_buffer_input<W: Wires>(&mut self, wires: &mut W) -> Event
        requires { FitsCopier (W.ends wires.old) self.old }
        ensures fits { FitsCopier (W.ends wires.new) self.new }
        ensures own { CopierEnd self.old (role_of result.op) result.queue.0 }
        ensures same { SameCopier self.old self.new }
        ensures stepped { Stepped CopierStandsFor W.did wires.old wires.new
            self.old self.new result }
        ensures posted { Posted (buffer_post self.old) (is_wanting self.old) result
            (buffer_post self.new) }
        ensures still { is_mark_at (buffer_post self.old) result ≡ false
            → SameWork self.old self.new }
        ensures others { self.new ≡ record self.old {
          buffer_input = self.new.buffer_input;
          buffer = self.new.buffer;
          stage = self.new.stage;
        } }
    {
        let need = self.is_wanting();
        let (event, got, dropped) = take_or_drop(&mut self.buffer_input, wires, need, self.drops);
        if let Some(entry) = got {
            let buffer = fill(entry, self.bytes());
            self.buffer = Some(buffer);
        } else if dropped {
            self.stage = Stage::Copied;
        }
        event
    }

    // The next call where filled buffers go.
    fn step_buffer_output<W: Wires>(&mut self, wires: &mut W) -> Event
        requires { FitsCopier (W.ends wires.old) self.old }
        ensures fits { FitsCopier (W.ends wires.new) self.new }
        ensures own { CopierEnd self.old (role_of result.op) result.queue.0 }
        ensures same { SameCopier self.old self.new }
        ensures stepped { Stepped CopierStandsFor W.did wires.old wires.new
            self.old self.new result }
        ensures posted { Posted (outlet_post self.old.buffer_output)
            (is_some self.old.buffer) result (outlet_post self.new.buffer_output) }
        ensures still { is_mark result.op result.answer ≡ false → SameWork self.old self.new }
        ensures others { self.new ≡ record self.old {
          buffer_output = self.new.buffer_output;
          buffer = self.new.buffer;
          stage = self.new.stage;
        } }
    {
        let event = self.buffer_output.step(wires, &mut self.buffer);
        if event.item.is_some() {
            self.stage = Stage::Copied;
        }
        event
    }

    // The next call where leases go back.
    fn step_lease_output<W: Wires>(&mut self, wires: &mut W) -> Event
        requires { FitsCopier (W.ends wires.old) self.old }
        ensures fits { FitsCopier (W.ends wires.new) self.new }
        ensures own { CopierEnd self.old (role_of result.op) result.queue.0 }
        ensures same { SameCopier self.old self.new }
        ensures stepped { Stepped CopierStandsFor W.did wires.old wires.new
            self.old self.new result }
        ensures posted { Posted (outlet_post self.old.lease_output)
            (is_returning self.old) result (outlet_post self.new.lease_output) }
        ensures still { is_mark result.op result.answer ≡ false → SameWork self.old self.new }
        ensures others { self.new ≡ record self.old
            { lease_output = self.new.lease_output; lease = self.new.lease } }
    {
        if self.is_returning() {
            self.lease_output.step(wires, &mut self.lease)
        } else {
            let mut nothing = None;
            self.lease_output.step(wires, &mut nothing)
        }
    }

    /// Makes one call on one of its ends.
    #[inline(never)]
    pub fn step<W: Wires>(&mut self, wires: &mut W) -> Event
        requires { FitsCopier (W.ends wires.old) self.old }
        ensures fits { FitsCopier (W.ends wires.new) self.new }
        ensures own { CopierEnd self.old (role_of result.op) result.queue.0 }
        ensures same { SameCopier self.old self.new }
        ensures stepped { Stepped CopierStandsFor W.did wires.old wires.new
            self.old self.new result }
        ensures turned { Turned (copier_round self.old) result (copier_round self.new) }
    {
        match self.choose() {
            0 => self.step_lease_input(wires),
            1 => self.step_buffer_input(wires),
            2 => self.step_buffer_output(wires),
            3 => self.step_lease_output(wires),
            _ => unreachable!(),
        }
    }

    /// Discards the last look of each end, and nothing else.
    pub fn forget(&mut self)
        ensures after { self.new ≡ copier_forgotten self.old }
        ensures same { SameCopier self.old self.new }
        ensures fits { (ends : Role → ℕ → End) → FitsCopier ends self.old
            → FitsCopier ends self.new }
        ensures lists { (passed : Passed) → CopierStandsFor self.old passed
            → CopierStandsFor self.new passed }
        ensures held { (passed : Passed) → HoldingCopierStands self.old passed
            → HoldingCopierStands self.new passed }
    {
        self.lease_input.forget();
        self.buffer_input.forget();
        self.buffer_output.forget();
        self.lease_output.forget();
    }
}

/// Whatever it stands for meets its row.
pub fn row_law()
    ensures { (c : NetCopier) (passed : Passed) → CopierStandsFor c passed → CopierRow c passed }
{}

/// What came and did not go out is in its hand.
pub fn hand_law()
    ensures { (c : NetCopier) (passed : Passed) → CopierStandsFor c passed
        → CopierBalances c passed }
{}

/// Where it waits each of its contracts is that of a copier which never drops, word for word: what
/// it stands for, its row, and its ends. And it drops no more leases than its looks for a buffer
/// were in vain.
pub fn drop_law()
    ensures stands { (c : NetCopier) (passed : Passed) → c.drops ≡ false
        → CopierStandsFor c passed → HoldingCopierStands c passed }
    ensures stood { (c : NetCopier) (passed : Passed) → c.drops ≡ false
        → HoldingCopierStands c passed → CopierStandsFor c passed }
    ensures holds { (c : NetCopier) (passed : Passed) → c.drops ≡ false → CopierRow c passed
        → HoldingCopierRow c passed }
    ensures held { (c : NetCopier) (passed : Passed) → c.drops ≡ false → HoldingCopierRow c passed
        → CopierRow c passed }
    ensures row { (c : NetCopier) (passed : Passed) → HoldingCopierStands c passed
        → HoldingCopierRow c passed }
    ensures balance { (c : NetCopier) (passed : Passed) → HoldingCopierStands c passed
        → CopierBalances c passed }
    ensures round { (c : NetCopier) → c.drops ≡ false → copier_round c ≡ holding_copier_round c }
    ensures few { (c : NetCopier) (calls : List Event) → marked (leases_dropped c calls)
        ≤ noes_at Consumer c.buffer_input.queue.0 calls }
{}

/// A turn of it is a drop exactly where it drops and a look for a buffer was in vain: so the entry
/// of a journal alone tells.
pub fn turn_law()
    ensures { (c n : NetCopier) (e : Event)
        → (c.lease_input.queue.0 ≡ c.buffer_input.queue.0 → ⊥)
        → (t : Turned (copier_round c) e (copier_round n)) → is_drop t.posted.post e
        ≡ (c.drops && is_vain_at Consumer c.buffer_input.queue.0 e) }
{}
