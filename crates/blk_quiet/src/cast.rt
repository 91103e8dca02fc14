//! The block class in a system: from the rows of its actors at the layout's queues nothing comes
//! out of turn at any of them, where clients that aren't hostile put requests in their own buffers
//! alone. That they do is told by what was put before, whatever the others put: a client does as
//! long as its own buffers alone came back to it.

ghost use Rattle.std.specs.Prelude.{◌≡◌, ◌+◌, ◌*◌, ◌≤◌, ℕ, Some, List, [], length, take, slice_get};
ghost use Rattle.cargo_core.specs.Blocks.{sector_bytes};
ghost use Rattle.cargo_core.specs.declared.item.Ask.{Ask};
ghost use Rattle.wire_core.specs.Deeds.{Cargo};
ghost use Rattle.wire_core.specs.Lists.{Passed};
ghost use Rattle.play_core.specs.Names.{Wild};
ghost use Rattle.device_model.specs.Disk.Disks.{DiskRow};
ghost use Rattle.client_programs.specs.Blk.Clients.{BlkClientRow};
ghost use Rattle.client_programs.specs.declared.blk.BlkClient.{BlkClient};
ghost use Rattle.blk_virt.specs.Openings.{sector_of};
ghost use Rattle.blk_virt.specs.Requests.{page_named};
ghost use Rattle.blk_virt.specs.Virtualising.{BlkVirtRow};
ghost use Rattle.owner_law.specs.Pools.Places.{PoolAt};
ghost use Rattle.blk_law.specs.Sheets.Numbers.{BlkPlace, IsBlkClientOf};
ghost use Rattle.blk_quiet.specs.Cast.Casting.{IsBlkCast, IsAskingClient, CalmAsk, AreRequests};
ghost use Rattle.blk_quiet.specs.Cast.Casting.{IsOfPool, IsWhole, WildWhole};

/// The virtualiser takes nothing out of turn, whatever the clients put, and no more responses than
/// it put requests, of which the first brings the disk's first sector. Where each client that isn't
/// hostile put requests in its own buffers alone, and a hostile one's buffers are as long as its
/// pool's, the disk takes nothing out of turn.
pub fn turn_law()
    ensures virtualiser { (place : BlkPlace) (passed : Passed) → (h : IsBlkCast place passed)
        → (row : BlkVirtRow h.virt passed) → row.stray ≡ [] }
    ensures answered { (place : BlkPlace) (passed : Passed) → (h : IsBlkCast place passed)
        → length (passed.taken h.virt.ends.input.queue.0)
        ≤ length (passed.sent h.virt.ends.output.queue.0) }
    ensures sector { (place : BlkPlace) (passed : Passed) → (h : IsBlkCast place passed)
        → (y : Cargo) → slice_get (passed.taken h.virt.ends.input.queue.0) 0 ≡ Some y
        → sector_of y.1 ≡ take sector_bytes place.image }
    ensures disk { (wild : Wild) (place : BlkPlace) (passed : Passed)
        → (h : IsBlkCast place passed) → CalmAsk wild place passed → WildWhole wild place passed
        → (row : DiskRow place.image h.disk passed) → row.stray ≡ [] }
{}

/// A client takes nothing out of turn, whatever the clients put, and each response brings the
/// buffer of its request. To a client that put requests in its own buffers alone those come back
/// alone, as long as they were, whatever the others put; and a client to which these alone came
/// back puts requests in them alone.
pub fn client_law()
    ensures turn { (place : BlkPlace) (passed : Passed) → IsBlkCast place passed
        → (k entry : ℕ) (asks : List Ask) (pool : PoolAt) → IsBlkClientOf place k entry asks pool
        → (c : BlkClient) → IsAskingClient place k asks pool c passed
        → (row : BlkClientRow c passed) → row.stray ≡ [] }
    ensures brings { (place : BlkPlace) (passed : Passed) → IsBlkCast place passed
        → (k entry : ℕ) (asks : List Ask) (pool : PoolAt) → IsBlkClientOf place k entry asks pool
        → (j : ℕ) (x y : Cargo) → slice_get (passed.sent (place.first + 4 + 2 * k)) j ≡ Some x
        → slice_get (passed.taken (place.first + 5 + 2 * k)) j ≡ Some y
        → page_named y.1 ≡ page_named x.1 }
    ensures back { (place : BlkPlace) (passed : Passed) → IsBlkCast place passed
        → (k entry : ℕ) (asks : List Ask) (pool : PoolAt) → IsBlkClientOf place k entry asks pool
        → AreRequests pool (passed.sent (place.first + 4 + 2 * k)) → (j : ℕ) (y : Cargo)
        → slice_get (passed.taken (place.first + 5 + 2 * k)) j ≡ Some y
        → IsOfPool pool y.1 × IsWhole y.1 }
    ensures puts { (place : BlkPlace) (passed : Passed) → IsBlkCast place passed
        → (k entry : ℕ) (asks : List Ask) (pool : PoolAt) → IsBlkClientOf place k entry asks pool
        → (c : BlkClient) → IsAskingClient place k asks pool c passed
        → ((j : ℕ) (y : Cargo) → slice_get (passed.taken (place.first + 5 + 2 * k)) j ≡ Some y
        → IsOfPool pool y.1 × IsWhole y.1)
        → AreRequests pool (passed.sent (place.first + 4 + 2 * k)) }
{}
