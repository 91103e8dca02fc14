//! The sending virtualiser among the owners of the network's buffers: it puts only what it took,
//! and hands pages on between the addresses of both sides.

ghost use Rattle.std.specs.Prelude.{◌≡◌, ℕ, List, length};
ghost use Rattle.wire_core.specs.Lists.{Passed};
ghost use Rattle.play_core.specs.Moved.{Moved};
ghost use Rattle.play_core.specs.Sheets.{Scene};
ghost use Rattle.owner_law.specs.Things.{Naming};
ghost use Rattle.owner_law.specs.Keeping.{PutsItsOwn};
ghost use Rattle.buffer_kit.specs.Virtualising.{from_queues, to_queues};
ghost use Rattle.net_virt_tx.specs.declared.NetVirtTx.{NetVirtTx};
ghost use Rattle.net_virt_tx.specs.Sending.{TxRow, TxBalances};
ghost use Rattle.net_virt_tx.specs.Traffics.{senders, traffic_hand};
ghost use Rattle.frame_core.specs.declared.mac.Mac.{Mac};
ghost use Rattle.net_law.specs.Owners.Names.{ClientPools};
ghost use Rattle.owner_law.specs.Pools.Places.{PoolAt};
ghost use Rattle.net_law.specs.Parts.Numbers.{layout_naming};
ghost use Rattle.net_law.specs.RxOwners.Virtualiser.{AreNet};
ghost use Rattle.net_law.specs.TxParts.Numbers.{sender_at};
ghost use Rattle.net_law.specs.TxParts.Parts.{SendPart};
ghost use Rattle.net_law.specs.TxParts.Playing.{send_part};
ghost use Rattle.net_law.specs.TxParts.Table.{send_sheet};
ghost use Rattle.owner_law.specs.Pools.Handing.{HandsOn};
ghost use Rattle.owner_law.specs.Pools.Lines.{HoldsIts};
ghost use Rattle.net_quiet.specs.Pools.Holders.{holder_of, no_lent};
ghost use Rattle.net_quiet.specs.TxOwners.Shipping.{NamesSend, ArePoolsApart};

/// What is said of the virtualiser lets it put only what it took: to the driver what came from the
/// clients, and to each client what came back in its range.
pub fn send_own_law()
    ensures { (naming : Naming) (p : SendPart) → NamesSend naming p → ArePoolsApart p.clients
        → PutsItsOwn naming (send_sheet p) }
{}

/// Its row, of entries with bodies, hands pages on: a good descriptor names the same buffer by its
/// offset and by its device address, and a bad one goes back as it is. Its clients' ranges don't
/// meet; and of each pool it took what it put and has in its hand.
pub fn send_pool_law()
    ensures apart { (v : NetVirtTx) (passed : Passed) → TxRow v passed
        → ArePoolsApart (send_part v).clients }
    ensures hands_on { (naming : Naming) (v : NetVirtTx) (passed : Passed) (m : Moved)
        → NamesSend naming (send_part v) → AreNet (passed.taken v.ends.input.queue.0)
        → TxRow v passed → HandsOn naming m passed (send_sheet (send_part v)).ends }
    ensures holds { (naming : Naming) (sizes : ℕ → ℕ) (v : NetVirtTx) (passed : Passed)
        (m : Moved) → NamesSend naming (send_part v)
        → length (from_queues v.ends) ≡ length (senders v.work)
        → length (to_queues v.ends) ≡ length (senders v.work) → TxBalances v passed
        → HoldsIts naming sizes m passed
        (holder_of (send_sheet (send_part v)) (traffic_hand v.work) no_lent) }
{}

/// By the layout's table, where the network's queues are the first, items name at the virtualiser's
/// queues what the owners of buffers ask.
pub fn send_name_law()
    ensures { (scene : Scene) (most : ℕ) (pool : PoolAt) (macs : List Mac) (pools : List ClientPools)
        → NamesSend (layout_naming scene pool macs pools) (sender_at 0 most pools) }
{}
