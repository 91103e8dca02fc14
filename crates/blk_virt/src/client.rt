//! What the block virtualiser keeps of one client.
ghost use Rattle.std.specs.Prelude.{Option, ◌≡◌, ◌+◌, ◌*◌, ◌<◌, ◌≤◌, ◌^◌, ◌++◌, ◌∷◌, ◌==◌, [], ℕ};
ghost use Rattle.std.specs.Prelude.{None, Some, true, false, is_some, length, slice_get, min};
ghost use Rattle.std.specs.Option.{ForSome, option_map, option_to_list};
ghost use Rattle.cargo_core.specs.Blocks.{blk_buffer_bytes};
ghost use Rattle.blk_mbr.specs.declared.part.Part.{Part};
ghost use Rattle.wire_core.specs.Deeds.{deed_of, put_of};
ghost use Rattle.wire_core.specs.Lists.{taken_by, put_by, if_there};
ghost use Rattle.wire_core.specs.Ends.{role_of};
ghost use Rattle.wire_core.specs.Marks.{is_mark};
ghost use Rattle.turn_kit.specs.Turns.{PostedAt};
ghost use Rattle.buffer_kit.specs.Virtualising.{VirtOwns, SameVirt, from_queues, to_queues};
ghost use Rattle.buffer_kit.specs.Virtualising.{virt_posts};
ghost use Rattle.blk_virt.specs.Ends.{FitsEnds};
ghost use Rattle.blk_virt.specs.Requests.{goes_on, number_of, for_disk, page_named, numbered};
ghost use Rattle.blk_virt.specs.Requests.{brings};
ghost use Rattle.blk_virt.specs.Clients.{carried, client_cargo, IsClient, IsFresh, Moved, is_idle};
ghost use Rattle.blk_virt.specs.Clients.{is_leaving, is_away, is_held, counted, brought};
ghost use Rattle.blk_virt.specs.Clients.{leaving_as, WentOff};

use crate::{Holder, PageName, brings, numbered, page_named, passed_on, request_of};
use blk_mbr::Part;
use buffer_kit::{BlkCargo, Served, VirtEnds};
use cargo_core::{Body, Item, PoolId};
use turn_kit::count_held;
use wire_core::{Event, Wires};

/// What is kept of a request that was sent on: its number, which is the client's own, and the name
/// of its buffer, where it has one.
#[derive(Clone, Copy, Debug, PartialEq, Eq)]
pub struct Current {
    pub id: u32,
    pub page: Option<PageName>,
}

/// What is kept of a client. `current` is its request that is on its way to the driver or there,
/// and `leaving` that request while it is on its way; `held` is the answer that is to go to the
/// client; `bad` counts the requests whose buffer wasn't the client's own.
#[derive(Drop)]
pub struct Client {
    pub holder: Holder,
    pub current: Option<Current>,
    pub leaving: Option<(Item, Body)>,
    pub held: Option<(Item, Body)>,
    pub bad: u64,
}

// The number of a request that is kept; 0 where there is none.
fn id_of(current: &Option<Current>) -> u32
    ensures { (x : Current) → current.now ≡ Some x → result ≡ x.id }
{
    match current {
        Some(current) => current.id,
        None => 0,
    }
}

impl Served for Client {
    ghost leaving = { λ c. c.leaving };

    ghost bad_many = { λ c. c.bad };

    fn is_leaving(&self) -> bool {
        self.leaving.is_some()
    }

    fn bad(&self) -> u64 {
        self.bad
    }
}

impl Client {
    /// A client of which nothing came yet.
    pub fn new(holder: Holder) -> Client
        requires some { 0 < holder.buffers }
        requires entry { holder.partition < 4 }
        requires room { holder.base + holder.buffers * blk_buffer_bytes ≤ 2 ^ 62 }
        ensures holder { result.holder ≡ holder }
        ensures fresh { IsFresh result }
    {
        Client {
            holder,
            current: None,
            leaving: None,
            held: None,
            bad: 0,
        }
    }

    /// Whether none of its requests is at the driver or on the way there, and no answer is held.
    pub fn is_idle(&self) -> bool
        ensures { result ≡ is_idle self.now }
    {
        self.current.is_none() && self.held.is_none()
    }

    /// Whether an answer is to go to it.
    pub fn is_held(&self) -> bool
        ensures { result ≡ is_held self.now }
    {
        self.held.is_some()
    }

    /// How many buffers of a pool it has here.
    pub fn held(&self, pool: PoolId) -> u32
        ensures held { result ≡ carried pool (client_cargo self.now) }
        ensures few { result ≤ 2 }
    {
        count_held(pool, &self.leaving) + count_held(pool, &self.held)
    }

    /// Whether a body is the buffer that its request at the driver has, where it has one.
    pub fn brings(&self, body: &Body) -> bool
        ensures { result ≡ brought self.now.current body.now }
    {
        match &self.current {
            Some(current) => brings(&current.page, body),
            None => false,
        }
    }

    // A request whose buffer isn't the client's own is counted. The count stands still at its
    // type's end.
    fn count_bad(&mut self, entry: &(Item, Body))
        ensures { self.new ≡ record self.old
            { bad = counted self.old.holder self.old.bad entry.now } }
    {
        if self.holder.is_bad(entry) {
            self.bad = self.bad.saturating_add(1);
        }
    }

    // A request goes on to the disk.
    fn accept(&mut self, part: Option<Part>, entry: (Item, Body))
        requires buffers { self.old.holder.base + self.old.holder.buffers * blk_buffer_bytes
            ≤ 2 ^ 62 }
        requires goes { goes_on self.old.holder part entry ≡ true }
        requires blocks { ForSome part (λ p. p.first_block + p.blocks < 2 ^ 32) }
        ensures { self.new ≡ record self.old {
          current = Some (record { id = number_of entry; page = page_named entry.1 });
          leaving = Some (for_disk self.old.holder part entry);
        } }
    {
        let id = request_of(&entry.0).id;
        let page = page_named(&entry.1);
        self.current = Some(Current { id, page });
        self.leaving = Some(self.holder.for_disk(part, entry));
    }

    /// A request came. It goes on to the disk, or is refused; one whose buffer isn't the client's
    /// own is counted.
    pub fn receive(&mut self, part: Option<Part>, entry: (Item, Body))
        requires work { IsClient self.old }
        requires idle { is_idle self.old ≡ true }
        requires blocks { ForSome part (λ p. p.first_block + p.blocks < 2 ^ 32) }
        ensures moved { Moved part self.old self.new (entry ∷ []) [] [] [] }
        ensures stays { is_away self.new ≡ is_away self.old }
    {
        self.count_bad(&entry);
        if self.holder.goes_on(part, &entry) {
            self.accept(part, entry);
        } else {
            self.held = Some(self.holder.refuse(part, entry));
        }
    }

    /// The disk's response to its request at the driver came.
    pub fn take_back(&mut self, entry: (Item, Body))
        requires work { IsClient self.old }
        requires away { is_away self.old ≡ true }
        requires brings { brought self.old.current entry.1 ≡ true }
        ensures moved { (part : Option Part) → Moved part self.old self.new [] [] (entry ∷ []) [] }
        ensures back { is_away self.new ≡ false }
    {
        let id = id_of(&self.current);
        self.current = None;
        self.held = Some(passed_on(id, entry));
    }

    // What leaves gets its number.
    fn number(&mut self, number: u32)
        ensures { self.new ≡ record self.old { leaving = leaving_as number self.old } }
    {
        if let Some(entry) = self.leaving.take() {
            self.leaving = Some(numbered(number, entry));
        }
    }

    /// The next call to the driver, for the request that leaves, which gets this number.
    pub fn send<W: Wires>(&mut self, ends: &mut VirtEnds, wires: &mut W, number: u32) -> Event
        requires fits { FitsEnds (W.ends wires.old) ends.old }
        requires work { IsClient self.old }
        requires some { is_leaving self.old ≡ true }
        ensures fits { FitsEnds (W.ends wires.new) ends.new }
        ensures own { VirtOwns ends.old (role_of result.op) result.queue.0 }
        ensures same { SameVirt ends.old ends.new }
        ensures did { W.did wires.old (deed_of result (put_of result (leaving_as number self.old)))
            wires.new }
        ensures takes { (n : ℕ)
            → taken_by (deed_of result (put_of result (leaving_as number self.old))) n ≡ [] }
        ensures puts { (n : ℕ)
            → put_by (deed_of result (put_of result (leaving_as number self.old))) n
            ≡ if_there (ends.old.output.queue.0 == n)
            (option_to_list (put_of result (leaving_as number self.old))) }
        ensures posted { PostedAt (virt_posts ends.old) 1 true result (virt_posts ends.new) }
        ensures still { is_mark result.op result.answer ≡ false → self.new
            ≡ record self.old { leaving = leaving_as number self.old } }
        ensures turn { ends.new.turn ≡ ends.old.turn }
        ensures moved { (part : Option Part) → Moved part self.old self.new []
            (option_to_list (put_of result (leaving_as number self.old))) [] [] }
        ensures went { is_leaving self.new ≡ false → WentOff self.old self.new number
            (option_to_list (put_of result (leaving_as number self.old))) }
        ensures stays { is_leaving self.new ≡ true → (is_away self.new ≡ false)
            × (option_to_list (put_of result (leaving_as number self.old)) ≡ []) }
    {
        self.number(number);
        ends.step_output::<BlkCargo, _>(wires, &mut self.leaving)
    }

    /// The next call to the client, for the answer that is held.
    pub fn give<W: Wires>(&mut self, ends: &mut VirtEnds, wires: &mut W, place: usize) -> Event
        requires fits { FitsEnds (W.ends wires.old) ends.old }
        requires work { IsClient self.old }
        requires there { place < length (to_queues ends.old) }
        requires some { is_held self.old ≡ true }
        ensures fits { FitsEnds (W.ends wires.new) ends.new }
        ensures own { VirtOwns ends.old (role_of result.op) result.queue.0 }
        ensures same { SameVirt ends.old ends.new }
        ensures did { W.did wires.old (deed_of result (put_of result self.old.held)) wires.new }
        ensures on { slice_get (to_queues ends.old) place ≡ Some result.queue }
        ensures takes { (n : ℕ) → taken_by (deed_of result (put_of result self.old.held)) n ≡ [] }
        ensures puts { (n : ℕ) → put_by (deed_of result (put_of result self.old.held)) n
            ≡ if_there (result.queue.0 == n) (option_to_list (put_of result self.old.held)) }
        ensures posted { PostedAt (virt_posts ends.old)
            (2 + length (from_queues ends.old) + place) true result (virt_posts ends.new) }
        ensures still { is_mark result.op result.answer ≡ false → self.new ≡ self.old }
        ensures turn { ends.new.turn ≡ ends.old.turn }
        ensures moved { (part : Option Part) → Moved part self.old self.new [] [] []
            (option_to_list (put_of result self.old.held)) }
        ensures away { is_away self.new ≡ is_away self.old }
    {
        ends.step_to_client::<BlkCargo, _>(wires, place, &mut self.held)
    }
}
