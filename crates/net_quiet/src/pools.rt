//! The pools of the network: its actors hand pages on under the items that name them, and have of
//! each pool what the table of owners says.

ghost use Rattle.std.specs.Prelude.{◌≡◌, ◌+◌, ◌*◌, ◌<◌, ◌≤◌, ℕ, true, None, Some, List};
ghost use Rattle.std.specs.Prelude.{length, slice_get};
ghost use Rattle.wire_core.specs.declared.names.QueueRow.{QueueRow};
ghost use Rattle.wire_core.specs.Ends.{Consumer};
ghost use Rattle.wire_core.specs.Journal.{Hostiles, is_calm, owner_of};
ghost use Rattle.wire_core.specs.Lists.{Passed};
ghost use Rattle.play_core.specs.Moved.{Moved};
ghost use Rattle.play_core.specs.Sheets.{Scene};
ghost use Rattle.owner_law.specs.Things.{Naming};
ghost use Rattle.owner_law.specs.Keeping.{IsNaming};
ghost use Rattle.turn_kit.specs.declared.pipe.Pipe.{Pipe};
ghost use Rattle.pipe_driver.specs.Drivers.{PipesRow, PipesBalance, pipes_hand};
ghost use Rattle.device_model.specs.Ethernet.Devices.{DeviceRow, DeviceBalances};
ghost use Rattle.device_model.specs.Ethernet.Devices.{device_hand};
ghost use Rattle.device_model.specs.declared.ethernet.EthDevice.{EthDevice};
ghost use Rattle.client_programs.specs.Net.Clients.{ClientRow, ClientBalances, client_hand};
ghost use Rattle.client_programs.specs.declared.net.NetClient.{NetClient};
ghost use Rattle.net_copier.specs.Copying.{CopierRow, CopierBalances, copier_hand};
ghost use Rattle.net_copier.specs.declared.NetCopier.{NetCopier};
ghost use Rattle.buffer_kit.specs.Virtualising.{from_queues, to_queues};
ghost use Rattle.net_virt_rx.specs.Sharing.{sharer_hand};
ghost use Rattle.net_virt_rx.specs.Receiving.{RxRow, RxStandsFor};
ghost use Rattle.net_virt_rx.specs.declared.NetVirtRx.{NetVirtRx};
ghost use Rattle.frame_core.specs.declared.mac.Mac.{Mac};
ghost use Rattle.net_law.specs.Owners.Names.{ClientPools};
ghost use Rattle.owner_law.specs.Pools.Places.{PoolAt, sizes_of, AreNumbered};
ghost use Rattle.net_law.specs.Owners.Ends.{AreItemsOf};
ghost use Rattle.net_law.specs.RxOwners.Virtualiser.{AreNet, TakesFrames};
ghost use Rattle.net_law.specs.Parts.Naming.{NamesPart};
ghost use Rattle.net_law.specs.Parts.Numbers.{client_first, layout_naming};
ghost use Rattle.net_law.specs.Parts.Playing.{device_part, driver_part, copier_part};
ghost use Rattle.net_law.specs.Parts.Playing.{receiver_part, client_part, HasBuffers};
ghost use Rattle.net_law.specs.Parts.Rows.{frame_at};
ghost use Rattle.net_law.specs.Parts.Table.{net_sheet};
ghost use Rattle.owner_law.specs.Pools.Handing.{HandsOn};
ghost use Rattle.owner_law.specs.Pools.Lines.{HoldsIts, NamesWithin};
ghost use Rattle.net_quiet.specs.Pools.Sizes.{net_pools};
ghost use Rattle.net_quiet.specs.Pools.Holders.{holder_of, no_lent, rx_lent};

/// Where what it took carries the pages that are named, so does what an actor of the network put:
/// by their rows a device and a copier fill buffers and hand them on, a driver hands them on as
/// they came, the receiving virtualiser puts its own buffers, and leases without a page, and a
/// client its own buffers and those that came, or came back.
pub fn hand_on_law()
    ensures device { (naming : Naming) (scene : Scene) (d : EthDevice) (passed : Passed) (m : Moved)
        → NamesPart naming scene (device_part d) → DeviceRow d passed
        → HandsOn naming m passed (net_sheet scene (device_part d)).ends }
    ensures driver { (naming : Naming) (scene : Scene) (ps : List Pipe) (passed : Passed)
        (m : Moved) → NamesPart naming scene (driver_part ps) → PipesRow ps passed
        → HandsOn naming m passed (net_sheet scene (driver_part ps)).ends }
    ensures copier { (naming : Naming) (scene : Scene) (c : NetCopier) (passed : Passed) (m : Moved)
        → NamesPart naming scene (copier_part c) → CopierRow c passed
        → HandsOn naming m passed (net_sheet scene (copier_part c)).ends }
    ensures receiver { (naming : Naming) (scene : Scene) (v : NetVirtRx) (passed : Passed)
        (m : Moved) → NamesPart naming scene (receiver_part v)
        → AreNet (passed.sent v.ends.output.queue.0) → RxRow v passed
        → HandsOn naming m passed (net_sheet scene (receiver_part v)).ends }
    ensures client { (naming : Naming) (scene : Scene) (c : NetClient) (passed : Passed) (m : Moved)
        → NamesPart naming scene (client_part c) → HasBuffers c → ClientRow c passed
        → HandsOn naming m passed (net_sheet scene (client_part c)).ends }
{}

/// Of each pool such an actor had at the start and took what it put, has in its hand and has lent:
/// the receiving virtualiser has lent the buffers that have a receiver, where nothing came to it
/// out of turn, and the others lend nothing.
pub fn hold_law()
    ensures device { (naming : Naming) (sizes : ℕ → ℕ) (scene : Scene) (d : EthDevice)
        (passed : Passed) (m : Moved) → NamesPart naming scene (device_part d)
        → DeviceBalances d passed → HoldsIts naming sizes m passed
        (holder_of (net_sheet scene (device_part d)) (device_hand d) no_lent) }
    ensures driver { (naming : Naming) (sizes : ℕ → ℕ) (scene : Scene) (ps : List Pipe)
        (passed : Passed) (m : Moved) → NamesPart naming scene (driver_part ps)
        → PipesBalance ps passed → HoldsIts naming sizes m passed
        (holder_of (net_sheet scene (driver_part ps)) (pipes_hand ps) no_lent) }
    ensures copier { (naming : Naming) (sizes : ℕ → ℕ) (scene : Scene) (c : NetCopier)
        (passed : Passed) (m : Moved) → NamesPart naming scene (copier_part c)
        → CopierBalances c passed → HoldsIts naming sizes m passed
        (holder_of (net_sheet scene (copier_part c)) (copier_hand c) no_lent) }
    ensures receiver { (naming : Naming) (sizes : ℕ → ℕ) (scene : Scene) (v : NetVirtRx)
        (passed : Passed) (m : Moved) → NamesPart naming scene (receiver_part v)
        → AreItemsOf (net_sheet scene (receiver_part v)).ends passed m
        → TakesFrames (frame_at scene.frames) v passed → RxStandsFor v passed
        → v.work.stray ≡ None → length (to_queues v.ends) ≡ length v.work.macs.items
        → length (from_queues v.ends) ≡ length v.work.macs.items
        → sizes v.work.stock.pool.0 ≡ v.work.stock.buffers
        → HoldsIts naming sizes m passed
        (holder_of (net_sheet scene (receiver_part v)) (sharer_hand v.work) (rx_lent v)) }
    ensures client { (naming : Naming) (sizes : ℕ → ℕ) (scene : Scene) (c : NetClient)
        (passed : Passed) (m : Moved) → NamesPart naming scene (client_part c)
        → ClientBalances c passed → HoldsIts naming sizes m passed
        (holder_of (net_sheet scene (client_part c)) (client_hand c) no_lent) }
{}

/// By the layout's table, where the network's queues are the first, all buffers that items name are
/// of the class's pools.
pub fn size_law()
    ensures { (scene : Scene) (pool : PoolAt) (macs : List Mac) (pools : List ClientPools)
        → AreNumbered (net_pools pool pools) → (n : ℕ)
        → NamesWithin (sizes_of (net_pools pool pools)) (layout_naming scene pool macs pools n) }
{}

/// By that table one actor lends, the consumer of the queue of frames and of those on which leases
/// come back; and no queue beyond the class's names anything.
pub fn listing_law()
    ensures { (scene : Scene) (pool : PoolAt) (macs : List Mac) (pools : List ClientPools)
        (lender : ℕ) (hostile : Hostiles) (queues : List QueueRow)
        → 8 + 6 * length pools ≤ length queues
        → ((n : ℕ) (row : QueueRow) → slice_get queues n ≡ Some row → is_calm hostile row ≡ true)
        → ((row : QueueRow) → slice_get queues 4 ≡ Some row → owner_of row Consumer ≡ lender)
        → ((k : ℕ) (row : QueueRow) → k < length pools
        → slice_get queues (client_first 0 k + 1) ≡ Some row → owner_of row Consumer ≡ lender)
        → IsNaming (layout_naming scene pool macs pools) lender hostile queues }
{}
