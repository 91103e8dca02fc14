//! The owners of the block class's buffers: what is said of each of its actors lets it put only
//! what it had at the start and took. A response brings back the buffer of the request of its
//! place.

ghost use Rattle.std.specs.Prelude.{ℕ, List};
ghost use Rattle.cargo_core.specs.declared.item.Ask.{Ask};
ghost use Rattle.play_core.specs.Sheets.{Scene};
ghost use Rattle.owner_law.specs.Things.{Naming};
ghost use Rattle.owner_law.specs.Pools.Places.{PoolAt};
ghost use Rattle.net_law.specs.Parts.Parts.{Way};
ghost use Rattle.blk_law.specs.Sheets.Parts.{DiskDevice, BlkDriver, BlkVirt, BlkClient, Sharer};
ghost use Rattle.blk_law.specs.Sheets.Table.{blk_sheet};
ghost use Rattle.blk_law.specs.Owners.Answering.{NamesBlk, ArePoolsApart, PutsItsOwnInOrder};

/// A disk, a driver, a client and the virtualiser put only what was in their hand, where queues
/// hand over in order and no more was answered than was asked: the first two what they took, the
/// client and the virtualiser the buffers that they had too. Of a client's requests the
/// virtualiser sends on or gives back each once, where no two pools have an address in common.
pub fn blk_own_law()
    ensures disk { (naming : Naming) (scene : Scene) (req resp : ℕ) (image : List ℕ)
        → NamesBlk naming (DiskDevice req resp image)
        → PutsItsOwnInOrder naming (blk_sheet scene (DiskDevice req resp image)) }
    ensures driver { (naming : Naming) (scene : Scene) (ways : List Way)
        → NamesBlk naming (BlkDriver ways)
        → PutsItsOwnInOrder naming (blk_sheet scene (BlkDriver ways)) }
    ensures client { (naming : Naming) (scene : Scene) (req resp : ℕ) (asks : List Ask)
        (pool : PoolAt) → NamesBlk naming (BlkClient req resp asks pool)
        → PutsItsOwnInOrder naming (blk_sheet scene (BlkClient req resp asks pool)) }
    ensures virtualiser { (naming : Naming) (scene : Scene) (req resp sectors : ℕ) (pool : PoolAt)
        (clients : List Sharer) → NamesBlk naming (BlkVirt req resp sectors pool clients)
        → ArePoolsApart pool clients
        → PutsItsOwnInOrder naming (blk_sheet scene (BlkVirt req resp sectors pool clients)) }
{}
