//! The network class apart from any system: what reaches the wire, from the rows of the actors on
//! the way and the law of the queues between them, at any moment.

ghost use Rattle.std.specs.Prelude.{◌≡◌, ℕ, List, map};
ghost use Rattle.cargo_core.specs.Lists.{PrefixMerge};
ghost use Rattle.wire_core.specs.Lists.{Passed};
ghost use Rattle.wire_core.specs.Queues.{items_of};
ghost use Rattle.turn_kit.specs.declared.pipe.Pipe.{Pipe};
ghost use Rattle.pipe_driver.specs.declared.pipes.Pipes.{Pipes};
ghost use Rattle.device_model.specs.Ethernet.Devices.{tx_active};
ghost use Rattle.device_model.specs.declared.ethernet.EthDevice.{EthDevice};
ghost use Rattle.net_virt_tx.specs.Traffics.{senders};
ghost use Rattle.net_virt_tx.specs.declared.NetVirtTx.{NetVirtTx};
ghost use Rattle.net_law.specs.TxParts.Playing.{sender_pool};
ghost use Rattle.net_law.specs.Wire.Telling.{told_frames};
ghost use Rattle.net_law.specs.Wire.Sending.{IsSending, AllBegin, frames_from};

/// The wire is a merge of beginnings: of the frames of the good descriptors that came from each
/// client, whatever the clients put; and of the frames that each client sends, where those begin
/// them. Then it is what the items tell that the device took: each names a buffer of a client, and
/// has the frame of its place among those of that client.
pub fn wire_law()
    ensures good { (d : EthDevice) (p : Pipes (Pipes (Pipes Pipe))) (v : NetVirtTx)
        (passed : Passed) → IsSending d p v passed
        → PrefixMerge (frames_from v passed) d.wire.tape.shown }
    ensures sends { (d : EthDevice) (p : Pipes (Pipes (Pipes Pipe))) (v : NetVirtTx)
        (passed : Passed) (sends : List (List (List ℕ))) → IsSending d p v passed
        → AllBegin v passed sends → PrefixMerge sends d.wire.tape.shown }
    ensures told { (d : EthDevice) (p : Pipes (Pipes (Pipes Pipe))) (v : NetVirtTx)
        (passed : Passed) (sends : List (List (List ℕ))) → IsSending d p v passed
        → AllBegin v passed sends → d.wire.tape.shown
        ≡ told_frames (map sender_pool (senders v.work)) sends
        (items_of (passed.taken (tx_active d))) }
{}
