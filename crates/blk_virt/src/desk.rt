//! What the block virtualiser keeps of all its clients.
ghost use Rattle.std.specs.Prelude.{◌≡◌, ◌+◌, ◌-◌, ◌*◌, ◌<◌, ◌≤◌, ◌^◌, ◌++◌, ◌∷◌, ◌==◌, [], ℕ};
ghost use Rattle.std.specs.Prelude.{List, Option, Some, None, true, false, is_some, length};
ghost use Rattle.std.specs.Prelude.{slice_get, IfOk};
ghost use Rattle.std.specs.Option.{ForSome, MatchOption, option_map, option_to_list};
ghost use Rattle.wire_core.specs.Deeds.{Cargo, deed_of, put_of};
ghost use Rattle.wire_core.specs.Lists.{taken_by, put_by, if_there};
ghost use Rattle.wire_core.specs.Ends.{role_of};
ghost use Rattle.wire_core.specs.Marks.{is_mark};
ghost use Rattle.turn_kit.specs.Turns.{PostedAt};
ghost use Rattle.buffer_kit.specs.Conserving.{Count, weighed};
ghost use Rattle.buffer_kit.specs.Virtualising.{VirtOwns, SameVirt, from_queues, to_queues};
ghost use Rattle.buffer_kit.specs.Virtualising.{virt_posts};
ghost use Rattle.blk_mbr.specs.declared.part.Part.{Part};
ghost use Rattle.blk_virt.specs.declared.client.Client.{Client};
ghost use Rattle.blk_virt.specs.declared.desk.Desk.{Desk};
ghost use Rattle.blk_virt.specs.Ends.{FitsEnds};
ghost use Rattle.blk_virt.specs.Clients.{is_away, is_leaving, carried};
ghost use Rattle.blk_virt.specs.Desks.{IsDesk, DeskStands, IsRequestOf, desk_cargo, with_more};
ghost use Rattle.blk_virt.specs.Desks.{OneMoved, IsStill, SentAs, needs_at, loaded_at, owes};
ghost use Rattle.blk_virt.specs.Desks.{held_at, leaving_at, leaving_with, is_due, bad_count};

use crate::{Client, Line};
use blk_mbr::Part;
use buffer_kit::{Served, VirtEnds, bad_of_all, leaver};
use cargo_core::{Body, Item, PoolId};
use turn_kit::Needs;
use wire_core::{Event, Wires};

/// What is kept of each client, and the line of those whose request is at the driver.
#[derive(Drop)]
pub struct Desk {
    pub clients: Vec<Client>,
    pub line: Line,
}

impl Desk {
    /// Whether the next request of the client at a place may be taken.
    pub fn needs(&self, place: usize) -> bool
        ensures { result ≡ needs_at self.now place }
    {
        match self.clients.get(place) {
            Some(client) => client.is_idle(),
            None => false,
        }
    }

    /// Whether an answer is to go to the client at a place.
    pub fn is_loaded(&self, place: usize) -> bool
        ensures { result ≡ loaded_at self.now place }
    {
        match self.clients.get(place) {
            Some(client) => client.is_held(),
            None => false,
        }
    }

    /// The first client that has a request for the driver.
    pub fn leaver(&self) -> Option<usize>
        ensures { MatchOption result (owes self.now ≡ false)
            (λ k. (owes self.now ≡ true) × (is_some (leaving_at self.now k) ≡ true)) }
    {
        leaver(&self.clients)
    }

    /// Whether a response is in turn: some request is at the driver, and it brings the buffer of
    /// the first one.
    pub fn is_due(&self, entry: &(Item, Body)) -> bool
        ensures { result ≡ is_due self.now entry.now }
    {
        match self.line.first() {
            Some(place) => match self.clients.get(place) {
                Some(client) => client.brings(&entry.1),
                None => false,
            },
            None => false,
        }
    }

    /// A request of the client at a place came. `part` is the client's partition.
    pub fn receive(&mut self, place: usize, part: Option<Part>, entry: (Item, Body))
        requires desk { IsDesk self.old }
        requires needed { needs_at self.old place ≡ true }
        requires blocks { ForSome part (λ p. p.first_block + p.blocks < 2 ^ 32) }
        ensures moved { OneMoved self.old self.new place part (entry ∷ []) [] [] [] }
        ensures line { self.new.line ≡ self.old.line }
    {
        let client = &mut self.clients[place];
        client.receive(part, entry);
    }

    // The first in the line leaves it.
    fn call(&mut self) -> usize
        requires desk { IsDesk self.old }
        requires some { (self.old.line.shown ≡ []) → ⊥ }
        ensures line { self.old.line.shown ≡ result ∷ self.new.line.shown }
        ensures others { self.new ≡ record self.old { line = self.new.line } }
        ensures room { self.new.line.room ≡ self.old.line.room }
        ensures there { result < length self.old.clients.items }
    {
        match self.line.pop() {
            Some(place) => place,
            None => unreachable!(),
        }
    }

    /// A response came that is in turn. It is for the first in the line, who leaves it.
    pub fn take_back(&mut self, entry: (Item, Body))
        requires desk { IsDesk self.old }
        requires due { is_due self.old entry ≡ true }
        ensures moved { (k : ℕ) × (self.old.line.shown ≡ k ∷ self.new.line.shown)
            × ((part : Option Part) → OneMoved self.old self.new k part [] [] (entry ∷ []) []) }
    {
        let place = self.call();
        let client = &mut self.clients[place];
        client.take_back(entry);
    }

    // The client at a place joins the line, where its request left.
    fn join(&mut self, place: usize)
        requires there { place < length self.old.clients.items }
        requires room { (c : Client) → slice_get self.old.clients.items place ≡ Some c
            → is_leaving c ≡ false → length self.old.line.shown < self.old.line.room }
        ensures others { self.new ≡ record self.old { line = self.new.line } }
        ensures room { self.new.line.room ≡ self.old.line.room }
        ensures went { (c : Client) → slice_get self.old.clients.items place ≡ Some c
            → is_leaving c ≡ false → self.new.line.shown ≡ self.old.line.shown ++ place ∷ [] }
        ensures stays { (c : Client) → slice_get self.old.clients.items place ≡ Some c
            → is_leaving c ≡ true → self.new.line.shown ≡ self.old.line.shown }
    {
        match self.clients.get(place) {
            Some(client) if !client.is_leaving() => self.line.push(place),
            _ => (),
        }
    }

    /// The next call to the driver, for the request of the client at a place, which gets this
    /// number.
    pub fn send<W: Wires>(
        &mut self,
        ends: &mut VirtEnds,
        wires: &mut W,
        place: usize,
        number: u32,
    ) -> Event
        requires fits { FitsEnds (W.ends wires.old) ends.old }
        requires desk { IsDesk self.old }
        requires some { is_some (leaving_at self.old place) ≡ true }
        ensures fits { FitsEnds (W.ends wires.new) ends.new }
        ensures own { VirtOwns ends.old (role_of result.op) result.queue.0 }
        ensures same { SameVirt ends.old ends.new }
        ensures did { W.did wires.old (deed_of result (put_of result (leaving_with number
            self.old place))) wires.new }
        ensures takes { (n : ℕ) → taken_by (deed_of result (put_of result
            (leaving_with number self.old place))) n ≡ [] }
        ensures puts { (n : ℕ) → put_by (deed_of result (put_of result
            (leaving_with number self.old place))) n ≡ if_there (ends.old.output.queue.0 == n)
            (option_to_list (put_of result (leaving_with number self.old place))) }
        ensures posted { PostedAt (virt_posts ends.old) 1 true result (virt_posts ends.new) }
        ensures turn { ends.new.turn ≡ ends.old.turn }
        ensures moved { (part : Option Part) → OneMoved self.old self.new place part []
            (option_to_list (put_of result (leaving_with number self.old place))) [] [] }
        ensures sent { SentAs self.old self.new place number
            (option_to_list (put_of result (leaving_with number self.old place))) }
        ensures still { is_mark result.op result.answer ≡ false → IsStill self.old self.new }
    {
        let client = &mut self.clients[place];
        let event = client.send(ends, wires, number);
        self.join(place);
        event
    }

    /// The next call to the client at a place, for the answer that is held.
    pub fn give<W: Wires>(&mut self, ends: &mut VirtEnds, wires: &mut W, place: usize) -> Event
        requires fits { FitsEnds (W.ends wires.old) ends.old }
        requires desk { IsDesk self.old }
        requires there { place < length (to_queues ends.old) }
        requires some { loaded_at self.old place ≡ true }
        ensures fits { FitsEnds (W.ends wires.new) ends.new }
        ensures own { VirtOwns ends.old (role_of result.op) result.queue.0 }
        ensures same { SameVirt ends.old ends.new }
        ensures did { W.did wires.old (deed_of result (put_of result (held_at self.old place)))
            wires.new }
        ensures on { slice_get (to_queues ends.old) place ≡ Some result.queue }
        ensures takes { (n : ℕ)
            → taken_by (deed_of result (put_of result (held_at self.old place))) n ≡ [] }
        ensures puts { (n : ℕ) → put_by (deed_of result (put_of result (held_at self.old place))) n
            ≡ if_there (result.queue.0 == n)
            (option_to_list (put_of result (held_at self.old place))) }
        ensures posted { PostedAt (virt_posts ends.old)
            (2 + length (from_queues ends.old) + place) true result (virt_posts ends.new) }
        ensures turn { ends.new.turn ≡ ends.old.turn }
        ensures moved { (part : Option Part) → OneMoved self.old self.new place part [] [] []
            (option_to_list (put_of result (held_at self.old place))) }
        ensures still { is_mark result.op result.answer ≡ false → IsStill self.old self.new }
        ensures line { self.new.line ≡ self.old.line }
    {
        let client = &mut self.clients[place];
        client.give(ends, wires, place)
    }

    /// How many buffers of a pool it has here.
    pub fn held(&self, pool: PoolId) -> u32
        requires { length self.now.clients.items < 2 ^ 31 - 2 }
        ensures held { result ≡ carried pool (desk_cargo self.now) }
        ensures few { result ≤ 2 * length self.now.clients.items }
    {
        let mut count = 0;
        for client in &self.clients {
            count += client.held(pool);
        }
        count
    }

    /// How many requests had a buffer that wasn't the client's own. The count stands still at its
    /// type's end.
    pub fn bad(&self) -> u64
        ensures { result ≡ bad_count self.now }
    {
        bad_of_all(&self.clients)
    }
}

/// Where a client is served further, what is kept of all goes on to fit together, each buffer that
/// came went or is in hand, with its number and its length, and all clients stand for so much more.
pub fn serve_law()
    ensures kept { (old new : Desk) (k : ℕ) (part : Option Part)
        (came sent back gave : List Cargo) → IsDesk old
        → OneMoved old new k part came sent back gave → IsDesk new }
    ensures held { (old new : Desk) (k : ℕ) (part : Option Part)
        (came sent back gave : List Cargo) → IsDesk old
        → OneMoved old new k part came sent back gave → (f : Count)
        → weighed f (desk_cargo old) + (weighed f came + weighed f back)
        ≡ weighed f (desk_cargo new) + (weighed f sent + weighed f gave) }
    ensures stays { (old new : Desk) (k : ℕ) (part : Option Part) (came gave : List Cargo)
        → IsDesk old → (m : OneMoved old new k part came [] [] gave)
        → is_away m.was ≡ false → new.line.shown ≡ old.line.shown → (parts : ℕ → Option Part)
        → parts m.was.holder.partition ≡ part → (cs gs : ℕ → List Cargo) (ls bs : List Cargo)
        → DeskStands old parts cs ls bs gs
        → DeskStands new parts (with_more cs k came) ls bs (with_more gs k gave) }
    ensures goes { (old new : Desk) (k : ℕ) (part : Option Part) (x : Cargo) → IsDesk old
        → (m : OneMoved old new k part [] (x ∷ []) [] []) → is_away m.was ≡ false
        → new.line.shown ≡ old.line.shown ++ k ∷ [] → IsRequestOf m.now x
        → (parts : ℕ → Option Part) → parts m.was.holder.partition ≡ part
        → (cs gs : ℕ → List Cargo) (ls bs : List Cargo) → DeskStands old parts cs ls bs gs
        → DeskStands new parts (with_more cs k []) (ls ++ x ∷ []) bs (with_more gs k []) }
    ensures answers { (old new : Desk) (k : ℕ) (part : Option Part) (y : Cargo) → IsDesk old
        → (m : OneMoved old new k part [] [] (y ∷ []) []) → old.line.shown ≡ k ∷ new.line.shown
        → (parts : ℕ → Option Part) → parts m.was.holder.partition ≡ part
        → (cs gs : ℕ → List Cargo) (ls bs : List Cargo) → DeskStands old parts cs ls bs gs
        → DeskStands new parts (with_more cs k []) ls (bs ++ y ∷ []) (with_more gs k []) }
{}
