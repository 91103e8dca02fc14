//! What a bus at play comes to, for any number of clients and whatever they ask: laws on the turns
//! of a play, which the call that plays a bus has from the player and the actors; the law on what
//! each client is answered that they follow from; and who owns each buffer.
#![tactic(auto)]

ghost use Rattle.std.specs.Prelude.{◌≡◌, ◌↔◌, ◌+◌, ◌<◌, ◌≤◌, ℕ, Some, List, [], length, slice_get};
ghost use Rattle.cargo_core.specs.Lists.{IsPrefix};
ghost use Rattle.wire_core.specs.declared.names.Entry.{Entry};
ghost use Rattle.wire_core.specs.declared.names.QueueRow.{QueueRow};
ghost use Rattle.wire_core.specs.Journal.{start_history};
ghost use Rattle.wire_core.specs.Marks.{all_sent};
ghost use Rattle.wire_core.specs.Picks.{PickedFrom};
ghost use Rattle.play_core.specs.Still.{IsQuiet};
ghost use Rattle.small_system.specs.Tales.{Turn, start_of, after_tale, journal_of, running_in};
ghost use Rattle.small_system.specs.Tales.{PickedBy, Along};
ghost use Rattle.small_system.specs.Wants.{RestsBy, runs_by, wanted_by, calm};
ghost use Rattle.i2c_text.specs.declared.bus.Bus.{Bus};
ghost use Rattle.i2c_virt.specs.I2cKit.Grants.{IsGranted};
ghost use Rattle.i2c_virt.specs.declared.i2c_client.client.BusClient.{BusClient};
ghost use Rattle.bus_law.specs.declared.i2c_actors.member.Member.{Member};
ghost use Rattle.bus_law.specs.declared.i2c_actors.member.Member.TheVariants as Members;
ghost use Rattle.bus_law.specs.I2cActors.Members.{member_means};
ghost use Rattle.bus_law.specs.Takes.{script_of, requests_taken, granted_replies};
ghost use Rattle.bus_law.specs.Plays.{IsBusTale};
ghost use Rattle.bus_law.specs.Bounds.{hops_of, bus_bound};
ghost use Rattle.bus_law.specs.Wants.{bus_wants};

pub mod bus_owners;
pub mod i2c_actors;
pub mod i2c_law;

use crate::i2c_actors::Member;
use crate::i2c_law::moment_law;
pub use bus_owners::{bus_pools, owners_law};
pub use i2c_actors::{CLIENT_CAPACITY, SHARED_CAPACITY, bus_members, bus_queues};
use play_core::quiet_law;
use play_core::rests::rest_law;
use small_system::small_law::{bound_law, still_law};
use small_system::tale_law;

/// At each moment of a play each client is there, and its replies are the first of those that its
/// own requests, the devices and the addresses that were granted to it determine.
pub fn replies_law()
    ensures there { (bus : Bus) (rows : List QueueRow) (start : List Member)
        (turns : List (Turn Member)) → IsBusTale bus rows start turns
        → (client : ℕ) → client < bus.clients → (x : BusClient)
        × (slice_get (after_tale (start_of rows start) turns).actors client
        ≡ Some (Members.Client x)) }
    ensures replies { (bus : Bus) (rows : List QueueRow) (start : List Member)
        (turns : List (Turn Member)) → IsBusTale bus rows start turns
        → (client : ℕ) → client < bus.clients → (x : BusClient)
        → slice_get (after_tale (start_of rows start) turns).actors client
        ≡ Some (Members.Client x)
        → IsPrefix x.asking.replies.shown (granted_replies bus (journal_of turns) client) }
{
    tale_law::<Member>();
    moment_law();
}

/// Two buses on which a client asks the same, with the same devices, and after which the same
/// addresses were granted to it, determine the same replies, whatever the other clients ask and
/// whoever is picked when: so what it is answered in the two are beginnings of one list.
pub fn agree_law()
    ensures { (bus other : Bus) (journal others : List Entry) (client : ℕ)
        → script_of bus client ≡ script_of other client → bus.devices ≡ other.devices
        → ((address : ℕ) → IsGranted client (requests_taken bus journal) address
        ↔ IsGranted client (requests_taken other others) address)
        → granted_replies bus journal client ≡ granted_replies other others client }
{}

/// Each request and its answer are put to three queues each at most, so a play has fewer steps than
/// a number that what is asked determines.
pub fn hops_law()
    ensures put { (bus : Bus) (rows : List QueueRow) (start : List Member)
        (turns : List (Turn Member)) → IsBusTale bus rows start turns
        → all_sent (start_history rows) rows (journal_of turns) ≤ hops_of bus }
    ensures steps { (bus : Bus) (rows : List QueueRow) (start : List Member)
        (turns : List (Turn Member)) → IsBusTale bus rows start turns → 0 < bus.clients
        → length (journal_of turns) < bus_bound bus }
{
    tale_law::<Member>();
    bound_law::<Member>();
}

/// Where nobody is runnable, each client has all its replies.
pub fn whole_law()
    ensures { (bus : Bus) (rows : List QueueRow) (start : List Member)
        (turns : List (Turn Member)) → IsBusTale bus rows start turns
        → running_in member_means (after_tale (start_of rows start) turns) ≡ []
        → (client : ℕ) → client < bus.clients → (x : BusClient)
        → slice_get (after_tale (start_of rows start) turns).actors client
        ≡ Some (Members.Client x)
        → x.asking.replies.shown ≡ granted_replies bus (journal_of turns) client }
{
    tale_law::<Member>();
    moment_law();
    still_law::<Member>();
    quiet_law();
}

/// At each moment of a play each actor rests exactly where all that it wants is settled, and what
/// it wants is read off the items that went through the queues, the calls and what the clients ask
/// alone; so a seed picks among those that are runnable by that, and where nobody is runnable,
/// nobody is so by that.
pub fn wants_law()
    ensures rests { (bus : Bus) (rows : List QueueRow) (start : List Member)
        (turns : List (Turn Member)) → IsBusTale bus rows start turns
        → RestsBy member_means (bus_wants bus) rows (after_tale (start_of rows start) turns)
        (journal_of turns) }
    ensures along { (bus : Bus) (rows : List QueueRow) (start : List Member)
        (turns : List (Turn Member)) → IsBusTale bus rows start turns
        → Along (λ moment before. RestsBy member_means (bus_wants bus) rows moment
        (journal_of before)) (start_of rows start) [] turns }
    ensures picks { (bus : Bus) (rows : List QueueRow) (start : List Member)
        (turns : List (Turn Member)) (seed : ℕ) → IsBusTale bus rows start turns
        → PickedBy member_means (start_of rows start) seed turns
        → PickedFrom (runs_by (bus_wants bus) rows (bus.clients + 3)) seed []
        (journal_of turns) }
    ensures runs { (bus : Bus) (rows : List QueueRow) (start : List Member)
        (turns : List (Turn Member)) → IsBusTale bus rows start turns
        → running_in member_means (after_tale (start_of rows start) turns)
        ≡ runs_by (bus_wants bus) rows (bus.clients + 3) (journal_of turns) }
    ensures quiet { (bus : Bus) (rows : List QueueRow) (start : List Member)
        (turns : List (Turn Member)) → IsBusTale bus rows start turns
        → running_in member_means (after_tale (start_of rows start) turns) ≡ []
        → IsQuiet calm (start_history rows) rows
        (wanted_by (bus_wants bus) rows (bus.clients + 3) (journal_of turns))
        (journal_of turns) }
{
    tale_law::<Member>();
    rest_law();
}
