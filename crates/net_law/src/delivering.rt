//! What a network client gets and sends where the device or its copier may drop: which frames it
//! must get, of those that the device accepted, and of which of these it must send an answer.

ghost use Rattle.std.specs.Prelude.{◌≡◌, false, true, ℕ, List, map};
ghost use Rattle.cargo_core.specs.Lists.{IsPrefix};
ghost use Rattle.frame_core.specs.declared.mac.Mac.{Mac};
ghost use Rattle.wire_core.specs.declared.names.Event.{Event};
ghost use Rattle.wire_core.specs.Fates.{without};
ghost use Rattle.wire_core.specs.Lists.{Passed};
ghost use Rattle.turn_kit.specs.declared.pipe.Pipe.{Pipe};
ghost use Rattle.pipe_driver.specs.declared.pipes.Pipes.{Pipes};
ghost use Rattle.class_expect.specs.NetExpect.Expecting.{frames_for, sends_of};
ghost use Rattle.device_model.specs.Ethernet.Devices.{DeviceRow, accepted, rx_active as filled_out};
ghost use Rattle.device_model.specs.declared.ethernet.EthDevice.{EthDevice};
ghost use Rattle.net_copier.specs.Copying.{CopierRow, leases_dropped};
ghost use Rattle.net_copier.specs.declared.NetCopier.{NetCopier};
ghost use Rattle.net_virt_rx.specs.declared.NetVirtRx.{NetVirtRx};
ghost use Rattle.buffer_kit.specs.Entries.{frame_of};
ghost use Rattle.client_programs.specs.declared.net.NetClient.{NetClient};
ghost use Rattle.client_programs.specs.Net.Programs.{program_of, answer_to, is_echo};
ghost use Rattle.client_programs.specs.Net.Clients.{ClientRow, tx_active};
ghost use Rattle.net_law.specs.Receiving.{IsReceiving, AreRoomy};
ghost use Rattle.net_law.specs.Delivering.{IsSubsequence, IsDelivering, HasRoomToSend};
ghost use Rattle.net_law.specs.Delivering.{frames_due, sends_out, came_to, copied_bytes};

/// A client's record is a beginning of the frames that it must get without those that its copier
/// dropped, and what it puts to be sent is a beginning of what it sends.
pub fn delivered_law()
    ensures records { (d : EthDevice) (p : Pipes (Pipes (Pipes Pipe))) (v : NetVirtRx)
        (k : NetCopier) (c : NetClient) (mac : Mac) (passed : Passed)
        → IsDelivering d p v k c mac passed → IsPrefix c.frames.tape.shown
        (without (leases_dropped k passed.calls) (frames_due d mac passed.calls)) }
    ensures sends { (d : EthDevice) (p : Pipes (Pipes (Pipes Pipe))) (v : NetVirtRx)
        (k : NetCopier) (c : NetClient) (passed : Passed)
        → (h : IsDelivering d p v k c c.program.mac passed) → HasRoomToSend c passed h.client
        → IsPrefix (map frame_of (passed.sent (tx_active c))) (sends_out d k c passed) }
{}

/// What passed at an actor's ends, by its row: a device's buffers have the frames that it accepted;
/// a copier's those of the leases that it didn't drop; and an echo puts answers to what came to it.
pub fn passed_law()
    ensures device { (d : EthDevice) (passed : Passed) → DeviceRow d passed
        → AreRoomy (accepted d passed.calls) (passed.taken d.free.queue.0)
        → IsPrefix (map frame_of (passed.sent (filled_out d))) (accepted d passed.calls) }
    ensures copier { (k : NetCopier) (passed : Passed) → CopierRow k passed
        → AreRoomy (copied_bytes k passed) (passed.taken k.buffer_input.queue.0)
        → IsPrefix (map frame_of (passed.sent k.buffer_output.queue.0)) (copied_bytes k passed) }
    ensures echo { (c : NetClient) (passed : Passed) → is_echo c.program.kind ≡ true
        → (row : ClientRow c passed) → HasRoomToSend c passed row
        → IsPrefix (map frame_of (passed.sent (tx_active c)))
        (map (answer_to c.program.mac) (came_to c passed)) }
{}

/// What is dropped is left out, and nothing else changes: what is accepted, what a client must get,
/// what it recorded and what it sends are each without some elements what they are where nothing is
/// dropped.
pub fn left_out_law()
    ensures accepted { (d : EthDevice) (calls : List Event)
        → IsSubsequence (accepted d calls) d.frames }
    ensures due { (d : EthDevice) (mac : Mac) (calls : List Event)
        → IsSubsequence (frames_due d mac calls) (frames_for mac d.frames) }
    ensures recorded { (d : EthDevice) (p : Pipes (Pipes (Pipes Pipe))) (v : NetVirtRx)
        (k : NetCopier) (c : NetClient) (mac : Mac) (passed : Passed)
        → IsDelivering d p v k c mac passed
        → IsSubsequence c.frames.tape.shown (frames_for mac d.frames) }
    ensures sends { (d : EthDevice) (p : Pipes (Pipes (Pipes Pipe))) (v : NetVirtRx)
        (k : NetCopier) (c : NetClient) (passed : Passed)
        → IsDelivering d p v k c c.program.mac passed → IsSubsequence (sends_out d k c passed)
        (sends_of (program_of c.program) c.program.mac d.frames) }
{}

/// Where the device and the copier wait, all of this is what it is where nothing is ever dropped:
/// all frames are accepted, what a client must get and what it sends is told by them alone, and the
/// actors' rows are those of actors that never drop.
pub fn waiting_law()
    ensures accepted { (d : EthDevice) (calls : List Event) → d.drops ≡ false
        → accepted d calls ≡ d.frames }
    ensures due { (d : EthDevice) (mac : Mac) (calls : List Event) → d.drops ≡ false
        → frames_due d mac calls ≡ frames_for mac d.frames }
    ensures sends { (d : EthDevice) (k : NetCopier) (c : NetClient) (passed : Passed)
        → d.drops ≡ false → k.drops ≡ false
        → sends_out d k c passed ≡ sends_of (program_of c.program) c.program.mac d.frames }
    ensures all { (k : NetCopier) (calls : List Event) → k.drops ≡ false
        → (frames : List (List ℕ)) → without (leases_dropped k calls) frames ≡ frames }
    ensures rows { (d : EthDevice) (p : Pipes (Pipes (Pipes Pipe))) (v : NetVirtRx)
        (k : NetCopier) (c : NetClient) (mac : Mac) (passed : Passed) → d.drops ≡ false
        → k.drops ≡ false → IsReceiving d p v k c mac passed → IsDelivering d p v k c mac passed }
    ensures back { (d : EthDevice) (p : Pipes (Pipes (Pipes Pipe))) (v : NetVirtRx)
        (k : NetCopier) (c : NetClient) (mac : Mac) (passed : Passed) → d.drops ≡ false
        → k.drops ≡ false → IsDelivering d p v k c mac passed → IsReceiving d p v k c mac passed }
{}
