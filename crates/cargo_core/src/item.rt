//! What the entries of queues say and carry: the descriptors of the three classes, and bodies.
ghost use Rattle.std.specs.Prelude.{◌≡◌};
ghost use Rattle.cargo_core.specs.Items.{kind_of, code_number, status_number};

use crate::{Bytes, Lease, Page};

/// A pool of buffers, by its place among the pools of a layout, counted from 0.
#[derive(Clone, Copy, Debug, PartialEq, Eq)]
pub struct PoolId(pub u16);

/// A descriptor of a network buffer: where it begins (a device address, or an offset into the
/// client's region, by the queue), and how many bytes of it are a frame. From sDDF's net queue
/// header.
#[derive(Clone, Copy, Debug, PartialEq, Eq)]
pub struct NetDesc {
    pub addr: u64,
    pub len: u16,
}

/// What a block request asks for. The numbers 0 to 3, in this order, are this project's own.
#[derive(Clone, Copy, Debug, PartialEq, Eq)]
pub enum Code {
    Read,
    Write,
    Flush,
    Barrier,
}

impl Code {
    /// The number by which a code is told.
    pub fn number(&self) -> u8
        ensures { result ≡ code_number self.now }
    {
        match self {
            Code::Read => 0,
            Code::Write => 1,
            Code::Flush => 2,
            Code::Barrier => 3,
        }
    }
}

/// How a block request ended. The numbers 0 to 2, in this order, are this project's own; the other
/// statuses of sDDF's block queue header are left out, since the modelled disk never errs.
#[derive(Clone, Copy, Debug, PartialEq, Eq)]
pub enum BlkStatus {
    Ok,
    Invalid,
    NoDevice,
}

impl BlkStatus {
    /// The number by which a status is told.
    pub fn number(&self) -> u8
        ensures { result ≡ status_number self.now }
    {
        match self {
            BlkStatus::Ok => 0,
            BlkStatus::Invalid => 1,
            BlkStatus::NoDevice => 2,
        }
    }
}

/// A block request: `block` and `count` are in blocks of 4,096 bytes, `addr` names the buffer. From
/// sDDF's block queue header. The widest fields come first, since fields lie in memory in this
/// order.
#[derive(Clone, Copy, Debug, PartialEq, Eq)]
pub struct BlkReq {
    pub addr: u64,
    pub block: u32,
    pub id: u32,
    pub count: u16,
    pub code: Code,
}

/// A block response. `count` is in blocks of 4,096 bytes, and `id` is that of the request.
#[derive(Clone, Copy, Debug, PartialEq, Eq)]
pub struct BlkResp {
    pub status: BlkStatus,
    pub count: u16,
    pub id: u32,
}

/// What an entry of a queue says.
#[derive(Clone, Copy, Debug, PartialEq, Eq)]
pub enum Item {
    Net(NetDesc),
    Byte(u8),
    Req(BlkReq),
    Resp(BlkResp),
}

/// Which items a queue takes.
#[derive(Clone, Copy, Debug, PartialEq, Eq)]
pub enum QueueKind {
    Net,
    Byte,
    Req,
    Resp,
}

impl Item {
    /// The kind of queue that the item is for.
    pub fn kind(&self) -> QueueKind
        ensures { result ≡ kind_of self.now }
    {
        match self {
            Item::Net(_) => QueueKind::Net,
            Item::Byte(_) => QueueKind::Byte,
            Item::Req(_) => QueueKind::Req,
            Item::Resp(_) => QueueKind::Resp,
        }
    }
}

/// What an entry of a queue carries: nothing, a buffer itself, or leave to read one. It can't be
/// cloned, since a buffer is one value.
#[derive(Debug, Drop)]
pub enum Body {
    Empty,
    Page(Page),
    Lease(Lease),
}

/// A request that a trace gives a block client. `fill` is empty but for a write; `block` and
/// `count` are 0 for a flush or a barrier.
#[derive(Debug, Drop)]
pub struct Ask {
    pub code: Code,
    pub block: u32,
    pub count: u16,
    pub fill: Bytes,
}

/// A response as a block client recorded it. `bytes` is empty but for a read that went well.
#[derive(Debug, Drop)]
pub struct Reply {
    pub resp: BlkResp,
    pub bytes: Bytes,
}
