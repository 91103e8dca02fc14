//! The numbers of a plan and a trace on which the step budget rests, and the budget.

ghost use Rattle.std.specs.Prelude.{◌≡◌, ◌+◌, ◌*◌, ◌<◌, ◌≤◌, ◌^◌, length, sum_by};
ghost use Rattle.cargo_core.specs.declared.item.Ask.{Ask};
ghost use Rattle.sdf_plan.specs.declared.plan.NetClient.{NetClient as NetClientOf};
ghost use Rattle.trace_text.specs.Traces.{IsReadFor};
ghost use Rattle.sdf_check.specs.Valid.{Valid};
ghost use Rattle.expect_core.specs.Budgets.{counts_of, no_trace, budget_of, budget_from};
ghost use Rattle.expect_core.specs.Budgets.{clients_or_none, IsWithinLimits, hops_of, most_ends};
ghost use Rattle.expect_core.specs.Budgets.{actors_of};

use cargo_core::{Ask, Bytes, FrameLog, Series};
use sdf_plan::{NetClient, Plan};
use trace_text::{Trace, limits_law};

// The frames of some lists together.
fn total_frames(logs: &[FrameLog]) -> u64
    requires { sum_by length logs.now < 2 ^ 64 }
    ensures { result ≡ sum_by length logs.now }
{
    logs.iter().map(|log| log.len() as u64).sum()
}

// The bytes of some lists together.
fn total_bytes(lists: &[Bytes]) -> u64
    requires { sum_by length lists.now < 2 ^ 64 }
    ensures { result ≡ sum_by length lists.now }
{
    lists.iter().map(|bytes| bytes.len() as u64).sum()
}

// The requests of some lists together.
fn total_asks(lists: &[Series<Ask>]) -> u64
    requires { sum_by length lists.now < 2 ^ 64 }
    ensures { result ≡ sum_by length lists.now }
{
    lists.iter().map(|asks| asks.len() as u64).sum()
}

// The buffers of the clients' receive pools together.
fn client_buffers(clients: &[NetClient]) -> u64
    requires { sum_by (λ (c : NetClientOf). c.rx_buffers) clients.now < 2 ^ 64 }
    ensures { result ≡ sum_by (λ (c : NetClientOf). c.rx_buffers) clients.now }
{
    let mut buffers = 0;
    for client in clients {
        buffers += client.rx_buffers;
    }
    buffers
}

/// The numbers of a plan and a trace on which the budget rests.
#[derive(Clone, Copy, Debug)]
pub struct ClassCounts {
    /// The clients of the network class, where the plan has it.
    pub net: Option<u64>,
    /// The clients of the serial class, where the plan has it.
    pub serial: Option<u64>,
    /// The clients of the block class, where the plan has it.
    pub blk: Option<u64>,
    /// The buffers of the network's receive pool.
    pub device_buffers: u64,
    /// The buffers of the network clients' receive pools together.
    pub client_buffers: u64,
    /// The frames that the Ethernet device receives.
    pub frames: u64,
    /// The frames that the network clients send.
    pub sends: u64,
    /// The bytes of the UART's input and of what the serial clients say.
    pub bytes: u64,
    /// The requests of the block clients.
    pub asks: u64,
}

impl ClassCounts {
    // How often the frames that are received are moved from queue to queue, at most.
    fn frame_hops(&self) -> u64
        requires { IsWithinLimits self.now }
        ensures value { result ≡ (4 + 10 * clients_or_none self.now.net) * self.now.frames }
        ensures small { result ≤ 86016 }
    {
        (4 + 10 * self.net.unwrap_or(0)) * self.frames
    }

    // How often the entries of a play are moved from queue to queue, at most.
    fn hops(&self) -> u64
        requires { IsWithinLimits self.now }
        ensures value { result ≡ hops_of self.now }
        ensures small { result ≤ 349188 }
    {
        let read_hops = if self.blk.is_some() { 4 } else { 0 };
        self.frame_hops()
            + 6 * self.sends
            + 3 * self.bytes
            + 6 * self.asks
            + 2 * self.device_buffers
            + self.client_buffers
            + read_hops
    }

    // How many actors there are.
    fn actors(&self) -> u64
        requires { IsWithinLimits self.now }
        ensures value { result ≡ actors_of self.now }
        ensures small { result ≤ 43 }
    {
        let net = match self.net {
            Some(clients) => 4 + 2 * clients,
            None => 0,
        };
        let serial = match self.serial {
            Some(clients) => 4 + clients,
            None => 0,
        };
        let blk = match self.blk {
            Some(clients) => 3 + clients,
            None => 0,
        };
        net + serial + blk
    }

    // The greatest number of queue ends of one actor.
    fn most_ends(&self) -> u64
        requires { IsWithinLimits self.now }
        ensures value { result ≡ most_ends self.now }
        ensures small { result ≤ 18 }
    {
        let net = match self.net {
            Some(clients) => (2 + 2 * clients).max(8),
            None => 0,
        };
        let serial = match self.serial {
            Some(clients) => (1 + clients).max(4),
            None => 0,
        };
        let blk = match self.blk {
            Some(clients) => (2 + 2 * clients).max(4),
            None => 0,
        };
        net.max(serial.max(blk))
    }

    // How many steps are enough.
    fn budget(&self) -> u64
        requires { IsWithinLimits self.now }
        ensures value { result ≡ budget_from self.now }
        ensures small { result < 268435456 }
    {
        32 * (self.hops() + self.actors() + 1) * (self.most_ends() + 1)
    }
}

// The clients of the network class, where the plan has it.
fn net_client_count(plan: &Plan) -> Option<u64>
    ensures { result ≡ (counts_of plan.now no_trace).net }
{
    match &plan.net {
        Some(net) => Some(net.client.len() as u64),
        None => None,
    }
}

// The clients of the serial class, where the plan has it.
fn serial_client_count(plan: &Plan) -> Option<u64>
    ensures { result ≡ (counts_of plan.now no_trace).serial }
{
    match &plan.serial {
        Some(serial) => Some(serial.client.len() as u64),
        None => None,
    }
}

// The clients of the block class, where the plan has it.
fn blk_client_count(plan: &Plan) -> Option<u64>
    ensures { result ≡ (counts_of plan.now no_trace).blk }
{
    match &plan.blk {
        Some(blk) => Some(blk.client.len() as u64),
        None => None,
    }
}

// The buffers of the network's receive pools: the device's, and those of the clients together.
fn receive_buffers(plan: &Plan) -> (u64, u64)
    requires { (counts_of plan.now no_trace).client_buffers < 2 ^ 64 }
    ensures device { result.0 ≡ (counts_of plan.now no_trace).device_buffers }
    ensures clients { result.1 ≡ (counts_of plan.now no_trace).client_buffers }
{
    match &plan.net {
        Some(net) => (net.rx_buffers, client_buffers(net.client.as_slice())),
        None => (0, 0),
    }
}

// The numbers of a plan and a trace on which the budget rests.
fn counts(plan: &Plan, trace: &Trace) -> ClassCounts
    requires { IsWithinLimits (counts_of plan.now trace.now) }
    ensures { result ≡ counts_of plan.now trace.now }
{
    let (device_buffers, client_buffers) = receive_buffers(plan);
    ClassCounts {
        net: net_client_count(plan),
        serial: serial_client_count(plan),
        blk: blk_client_count(plan),
        device_buffers,
        client_buffers,
        frames: trace.frames.len() as u64,
        sends: total_frames(trace.sends.as_slice()),
        bytes: trace.input.len() as u64 + total_bytes(trace.says.as_slice()),
        asks: total_asks(trace.asks.as_slice()),
    }
}

/// How many steps are enough for a play of this plan and trace: 32 for each hop and each actor, and
/// 32 more, times one more than the greatest number of queue ends of one actor. The plan is valid,
/// and the trace was read for it. This project's own.
pub fn budget(plan: &Plan, trace: &Trace) -> u64
    requires valid { Valid plan.now }
    requires read { IsReadFor plan.now trace.now }
    ensures value { result ≡ budget_of plan.now trace.now }
    ensures small { result < 268435456 }
{
    limits_law();
    counts(plan, trace).budget()
}
