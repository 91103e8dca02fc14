//! What holds of the network class apart from any system, by the rows of its actors and the law of
//! the queues between them: at any moment what reaches each client and the wire, and what each
//! client sends, also without what the device and the copiers drop; the tables of its actors, and
//! when each is at rest; who has which buffer; and how often its entries are moved.
#![tactic(auto)]

ghost use Rattle.std.specs.Prelude.{ℕ, List, map};
ghost use Rattle.cargo_core.specs.Lists.{IsPrefix};
ghost use Rattle.frame_core.specs.declared.mac.Mac.{Mac};
ghost use Rattle.wire_core.specs.Lists.{Passed};
ghost use Rattle.turn_kit.specs.declared.pipe.Pipe.{Pipe};
ghost use Rattle.pipe_driver.specs.declared.pipes.Pipes.{Pipes};
ghost use Rattle.class_expect.specs.NetExpect.Expecting.{frames_for, sends_of};
ghost use Rattle.device_model.specs.declared.ethernet.EthDevice.{EthDevice};
ghost use Rattle.net_copier.specs.declared.NetCopier.{NetCopier};
ghost use Rattle.net_virt_rx.specs.declared.NetVirtRx.{NetVirtRx};
ghost use Rattle.buffer_kit.specs.Entries.{frame_of};
ghost use Rattle.client_programs.specs.declared.net.NetClient.{NetClient};
ghost use Rattle.client_programs.specs.Net.Programs.{program_of};
ghost use Rattle.client_programs.specs.Net.Clients.{tx_active};
ghost use Rattle.net_law.specs.Receiving.{IsReceiving};
ghost use Rattle.net_law.specs.Sending.{IsSending};

pub mod delivering;
pub mod drops;
pub mod hops;
pub mod owners;
pub mod parts;
pub mod rests;
pub mod rx_owners;
pub mod tx_parts;
pub mod tx_rests;
pub mod tx_scene;
pub mod wire;

/// A client's record is a beginning of the device's frames that are for it.
pub fn receive_law()
    ensures { (d : EthDevice) (p : Pipes (Pipes (Pipes Pipe))) (v : NetVirtRx) (k : NetCopier)
        (c : NetClient) (mac : Mac) (passed : Passed) → IsReceiving d p v k c mac passed
        → IsPrefix c.frames.tape.shown (frames_for mac d.frames) }
{}

/// The frames that a client puts to be sent are a beginning of those that it sends by its program:
/// of a source its script, of an echo the answers to the frames that are for it.
pub fn send_law()
    ensures { (c : NetClient) (mac : Mac) (frames : List (List ℕ)) (passed : Passed)
        → IsSending c mac frames passed → IsPrefix (map frame_of (passed.sent (tx_active c)))
        (sends_of (program_of c.program) mac frames) }
{}
