//! The pools of the block class: its actors hand pages on under the items that name them, and have
//! of each pool what the table of owners says.

ghost use Rattle.std.specs.Prelude.{◌≡◌, ◌≤◌, ◌+◌, ◌*◌, ℕ, Some, List, [], ◌∷◌, length, slice_get};
ghost use Rattle.cargo_core.specs.declared.item.Ask.{Ask};
ghost use Rattle.wire_core.specs.Lists.{Passed};
ghost use Rattle.play_core.specs.Moved.{Moved};
ghost use Rattle.play_core.specs.Sheets.{Scene};
ghost use Rattle.owner_law.specs.Things.{Naming, NoBuffers, naming_of};
ghost use Rattle.turn_kit.specs.Hands.{bodies_of};
ghost use Rattle.turn_kit.specs.declared.pipe.Pipe.{Pipe};
ghost use Rattle.pipe_driver.specs.Drivers.{PipesRow, PipesBalance, pipes_hand};
ghost use Rattle.buffer_kit.specs.Virtualising.{from_queues, to_queues};
ghost use Rattle.device_model.specs.Disk.Disks.{DiskRow, DiskBalances, disk_hand};
ghost use Rattle.device_model.specs.declared.disk.DiskDevice.{DiskDevice};
ghost use Rattle.client_programs.specs.Blk.Clients.{BlkClientRow, BlkClientBalances};
ghost use Rattle.client_programs.specs.Blk.Clients.{blk_client_hand};
ghost use Rattle.client_programs.specs.declared.blk.BlkClient.{BlkClient};
ghost use Rattle.blk_virt.specs.Desks.{holders};
ghost use Rattle.blk_virt.specs.Virtualising.{BlkVirtRow, BlkVirtBalances};
ghost use Rattle.blk_virt.specs.Works.{work_cargo};
ghost use Rattle.blk_virt.specs.declared.virtualiser.BlkVirt.{BlkVirt};
ghost use Rattle.play_core.specs.Rests.Showing.{HaveItems};
ghost use Rattle.owner_law.specs.Pools.Handing.{HandsOn};
ghost use Rattle.owner_law.specs.Pools.Lines.{HoldsIts, NamesWithin};
ghost use Rattle.owner_law.specs.Pools.Places.{PoolAt};
ghost use Rattle.net_quiet.specs.Pools.Holders.{holder_of, no_lent};
ghost use Rattle.blk_law.specs.Sheets.Numbers.{BlkPlace, disk_at, blk_driver_at, virt_at};
ghost use Rattle.blk_law.specs.Sheets.Numbers.{blk_client_at};
ghost use Rattle.blk_law.specs.Sheets.Playing.{VirtInTurn, disk_part, blk_driver_part, virt_part};
ghost use Rattle.blk_law.specs.Sheets.Playing.{blk_client_part};
ghost use Rattle.blk_law.specs.Sheets.Table.{blk_sheet};
ghost use Rattle.blk_law.specs.Owners.Answering.{NamesBlk, IsInOrder, TakesBlocks};
ghost use Rattle.blk_quiet.specs.Pools.Naming.{IsNamedAt, NamesServed, blk_names};

/// Where queues hand over in order and what it took carries the pages that are named, so does what
/// an actor of the block class put: a disk fills the buffer of a read and gives each back with its
/// response, a driver hands requests and responses on, a client asks in its own buffers and those
/// that came back, and the virtualiser, whose own buffer is the first of its pool, sends on what
/// its clients asked and gives it back.
pub fn blk_hand_law()
    ensures disk { (naming : Naming) (scene : Scene) (start : List ℕ) (d : DiskDevice)
        (passed : Passed) (m : Moved) → HaveItems passed m → IsInOrder naming m
        → NamesBlk naming (disk_part start d) → DiskRow start d passed
        → HandsOn naming m passed (blk_sheet scene (disk_part start d)).ends }
    ensures driver { (naming : Naming) (scene : Scene) (p q : Pipe) (passed : Passed) (m : Moved)
        → HaveItems passed m → IsInOrder naming m
        → NamesBlk naming (blk_driver_part (p ∷ q ∷ [])) → PipesRow (p ∷ q ∷ []) passed
        → HandsOn naming m passed (blk_sheet scene (blk_driver_part (p ∷ q ∷ []))).ends }
    ensures virtualiser { (naming : Naming) (scene : Scene) (v : BlkVirt) (passed : Passed)
        (m : Moved) → HaveItems passed m → IsInOrder naming m → NamesServed naming (virt_part v)
        → v.work.opening.own.no ≡ 0 → VirtInTurn scene.image v passed → BlkVirtRow v passed
        → HandsOn naming m passed (blk_sheet scene (virt_part v)).ends }
    ensures client { (naming : Naming) (scene : Scene) (c : BlkClient) (passed : Passed) (m : Moved)
        → NamesBlk naming (blk_client_part c) → BlkClientRow c passed
        → HandsOn naming m passed (blk_sheet scene (blk_client_part c)).ends }
{}

/// Of each pool such an actor had at the start and took what it put and has in its hand: none
/// lends.
pub fn blk_hold_law()
    ensures disk { (naming : Naming) (sizes : ℕ → ℕ) (scene : Scene) (start : List ℕ)
        (d : DiskDevice) (passed : Passed) (m : Moved) → NamesBlk naming (disk_part start d)
        → DiskBalances d passed → HoldsIts naming sizes m passed
        (holder_of (blk_sheet scene (disk_part start d)) (disk_hand d) no_lent) }
    ensures driver { (naming : Naming) (sizes : ℕ → ℕ) (scene : Scene) (p q : Pipe)
        (passed : Passed) (m : Moved) → NamesBlk naming (blk_driver_part (p ∷ q ∷ []))
        → PipesBalance (p ∷ q ∷ []) passed → HoldsIts naming sizes m passed
        (holder_of (blk_sheet scene (blk_driver_part (p ∷ q ∷ []))) (pipes_hand (p ∷ q ∷ []))
        no_lent) }
    ensures virtualiser { (naming : Naming) (sizes : ℕ → ℕ) (scene : Scene) (v : BlkVirt)
        (passed : Passed) (m : Moved) → NamesBlk naming (virt_part v)
        → length (from_queues v.ends) ≡ length (holders v.work.desk)
        → length (to_queues v.ends) ≡ length (holders v.work.desk)
        → BlkVirtBalances v passed → HoldsIts naming sizes m passed
        (holder_of (blk_sheet scene (virt_part v)) (bodies_of (work_cargo v.work)) no_lent) }
    ensures client { (naming : Naming) (sizes : ℕ → ℕ) (scene : Scene) (c : BlkClient)
        (passed : Passed) (m : Moved) → NamesBlk naming (blk_client_part c)
        → BlkClientBalances c passed → HoldsIts naming sizes m passed
        (holder_of (blk_sheet scene (blk_client_part c)) (blk_client_hand c) no_lent) }
{}

/// Each actor of the class at its place names what the class's naming says of its queues; by that
/// naming all buffers are of the class's pools, and no queue beyond the class's names anything.
pub fn blk_naming_law()
    ensures disk { (naming : Naming) (place : BlkPlace) → IsNamedAt naming place
        → NamesBlk naming (disk_at place) }
    ensures driver { (naming : Naming) (place : BlkPlace) → IsNamedAt naming place
        → NamesBlk naming (blk_driver_at place.first) }
    ensures virtualiser { (naming : Naming) (place : BlkPlace) → IsNamedAt naming place
        → length place.pools ≡ length place.entries → NamesBlk naming (virt_at place) }
    ensures client { (naming : Naming) (place : BlkPlace) → IsNamedAt naming place
        → (k : ℕ) (asks : List Ask) (p : PoolAt) → slice_get place.pools k ≡ Some p
        → TakesBlocks p → NamesBlk naming (blk_client_at place.first k asks p) }
    ensures within { (sizes : ℕ → ℕ) (place : BlkPlace)
        → place.pool.buffers ≤ sizes place.pool.number
        → ((k : ℕ) (p : PoolAt) → slice_get place.pools k ≡ Some p → p.buffers ≤ sizes p.number)
        → (i : ℕ) → NamesWithin sizes (naming_of (blk_names place) i) }
    ensures past { (place : BlkPlace) (i : ℕ) → 4 + 2 * length place.pools ≤ i
        → naming_of (blk_names place) i ≡ NoBuffers }
{}
