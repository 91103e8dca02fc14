//! The owners of the buffers of a bus at play: each buffer has one owner at each moment, and the
//! table of owners after a journal is the one that the journal's moves make of the start. What a
//! report tells of the clients' pools is a replay of the journal.

ghost use Rattle.std.specs.Prelude.{◌≡◌, ◌<◌, ℕ, List};
ghost use Rattle.cargo_core.specs.declared.item.PoolId.{PoolId};
ghost use Rattle.wire_core.specs.declared.names.QueueRow.{QueueRow};
ghost use Rattle.wire_core.specs.Journal.{start_history, EachMoment};
ghost use Rattle.play_core.specs.Moved.{moved};
ghost use Rattle.owner_law.specs.Owners.{OneOwner, replay};
ghost use Rattle.owner_law.specs.Keeping.{IsShownBy, start_table};
ghost use Rattle.owner_law.specs.Census.{IsPool};
ghost use Rattle.small_system.specs.Tales.{Turn, journal_of};
ghost use Rattle.i2c_text.specs.declared.bus.Bus.{Bus};
ghost use Rattle.bus_law.specs.declared.i2c_actors.member.Member.{Member};
ghost use Rattle.bus_law.specs.Plays.{IsBusTale};
ghost use Rattle.bus_law.specs.BusOwners.Naming.{bus_naming};
ghost use Rattle.bus_law.specs.BusOwners.Keepers.{bus_keepers, pool_size};

mod pools;

use crate::i2c_actors::Member;
use i2c_virt::i2c_client::client_law;
use i2c_virt::{bus_law, driver_law, virt_law};
use owner_law::pools::spread_law;
pub use pools::bus_pools;
use small_system::small_law::keeper_law;

/// At each moment of a play each move so far found its buffer in the place that it leaves, where at
/// the start each client has its own two buffers; the table after the journal is what went through
/// the queues; and each buffer of a client has a place in it at the start.
pub fn owners_law()
    ensures owners { (bus : Bus) (rows : List QueueRow) (start : List Member)
        (turns : List (Turn Member)) → IsBusTale bus rows start turns
        → EachMoment (OneOwner (bus_naming bus.clients) (start_history rows)
        (start_table (bus_keepers bus.clients))) (journal_of turns) }
    ensures shown { (bus : Bus) (rows : List QueueRow) (start : List Member)
        (turns : List (Turn Member)) → IsBusTale bus rows start turns
        → IsShownBy (bus_naming bus.clients) bus.clients (bus_keepers bus.clients)
        (moved (start_history rows) (journal_of turns))
        (replay (bus_naming bus.clients) (start_history rows)
        (start_table (bus_keepers bus.clients)) (journal_of turns)) }
    ensures pools { (clients pool : ℕ) → pool < clients
        → IsPool (start_table (bus_keepers clients)) pool (pool_size clients pool) }
{
    client_law();
    virt_law();
    driver_law();
    bus_law();
    spread_law();
    keeper_law::<Member>();
}
