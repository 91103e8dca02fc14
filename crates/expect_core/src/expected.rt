//! What a client must get, as plain and slow functions: tests compare plays with them.

ghost use Rattle.std.specs.Prelude.{◌≡◌, ◌<◌, IfOk, length};
ghost use Rattle.class_expect.specs.NetExpect.Expecting.{frames_for};
ghost use Rattle.sdf_check.specs.Valid.{Valid};
ghost use Rattle.class_expect.specs.SerialSwitch.Switching.{input_of};
ghost use Rattle.trace_text.specs.Events.{blk_clients};
ghost use Rattle.trace_text.specs.Traces.{IsReadFor};
ghost use Rattle.expect_core.specs.Expected.{client_entry, replies_in};

use cargo_core::{Bytes, FrameLog, Memory, Reply};
use class_expect::blk_expect::replies_of as plain_replies_of;
use class_expect::net_expect::frames_for as plain_frames_for;
use class_expect::serial_switch::plain_input_of;
use frame_core::Mac;
use sdf_plan::Plan;
use std::alloc::Global;
use trace_text::{Trace, limits_law, shapes_law};

/// The frames that the network client of an address must get of a trace: those that the Ethernet
/// device receives and that go to that address or to all stations. A plain and slow function, for
/// tests.
pub fn frames_for(alloc: Global, trace: &Trace, mac: Mac) -> Result<FrameLog, Memory>
    ensures { IfOk result (λ log. log ≡ frames_for mac trace.now.frames) }
{
    plain_frames_for(alloc, trace.frames(), mac)
}

/// The bytes that a serial client must get of a trace, where the class has so many clients: those
/// of the UART's input that are switched to it. A plain and slow function, for tests.
pub fn input_of(alloc: Global, trace: &Trace, clients: u32, client: u32) -> Result<Bytes, Memory>
    requires { client < clients }
    ensures { IfOk result (λ bytes. bytes ≡ input_of clients client trace.now.input) }
{
    plain_input_of(alloc, trace.input(), clients, client)
}

/// The entry in the table of partitions that the block client of a number has, 0 where there is no
/// such client. It must be one of the four.
pub fn client_entry(plan: &Plan, client: u32) -> u8
    requires { client_entry plan.now client < 4 }
    ensures { result ≡ client_entry plan.now client }
{
    match &plan.blk {
        Some(blk) if (client as usize) < blk.client.len() => {
            blk.client.get(client as usize).partition as u8
        }
        _ => 0,
    }
}

/// The replies that a block client must get of a trace: those to its own requests, judged and
/// played on its own partition of the disk as it was at the start, whatever others ask for. The
/// plan is valid, the trace was read for it, and the client is one of its class. A plain and slow
/// function, for tests.
pub fn replies_of(
    alloc: Global,
    trace: &Trace,
    plan: &Plan,
    client: u32,
) -> Result<Vec<Reply>, Memory>
    requires valid { Valid plan.now }
    requires read { IsReadFor plan.now trace.now }
    requires exists { client < length (blk_clients plan.now) }
    ensures { IfOk result (λ rs. rs.items ≡ replies_in plan.now trace.now client) }
{
    limits_law();
    shapes_law();
    let entry = client_entry(plan, client);
    plain_replies_of(alloc, trace.image(), entry, trace.asks(client))
}
