//! How the requests of one client are judged, answered and sent on to the disk.
ghost use Rattle.std.specs.Prelude.{◌≡◌, ◌+◌, ◌*◌, ◌<◌, ◌≤◌, ◌^◌, true, ℕ, Some};
ghost use Rattle.std.specs.Option.{ForSome};
ghost use Rattle.cargo_core.specs.Blocks.{blk_buffer_bytes};
ghost use Rattle.blk_mbr.specs.declared.part.Part.{Part};
ghost use Rattle.blk_virt.specs.Requests.{request_of, response_of, moves_blocks, is_own, is_bad};
ghost use Rattle.blk_virt.specs.Requests.{judged, goes_on, first_block, asked_of_disk, for_disk};
ghost use Rattle.blk_virt.specs.Requests.{numbered, refusal, passed_on, page_named, brings};

use blk_mbr::Part;
use cargo_core::{BLK_BUFFER_BYTES, BlkReq, BlkResp, BlkStatus, Body, Code, Item, PoolId};
use class_expect::blk_expect::judge;

/// What a client has: its buffers, which are those of a pool, how many there are, the device
/// address at which the first one begins, and the entry of its partition in the disk's table.
#[derive(Clone, Copy, Debug, PartialEq, Eq)]
pub struct Holder {
    pub pool: PoolId,
    pub buffers: u32,
    pub base: u64,
    pub partition: u8,
}

/// A buffer, by its pool and its number there.
#[derive(Clone, Copy, Debug, PartialEq, Eq)]
pub struct PageName {
    pub pool: PoolId,
    pub no: u32,
}

// A request that asks for nothing.
const NO_REQUEST: BlkReq = BlkReq {
    addr: 0,
    block: 0,
    id: 0,
    count: 0,
    code: Code::Flush,
};

/// The request that an item is; one of another class asks for nothing.
pub fn request_of(item: &Item) -> BlkReq
    ensures { result ≡ request_of item.now }
{
    match item {
        Item::Req(request) => *request,
        _ => NO_REQUEST,
    }
}

/// The response that an item is; one of another class says that a request was invalid.
pub fn response_of(item: &Item) -> BlkResp
    ensures { result ≡ response_of item.now }
{
    match item {
        Item::Resp(response) => *response,
        _ => BlkResp {
            status: BlkStatus::Invalid,
            count: 0,
            id: 0,
        },
    }
}

/// Whether a request of this code moves blocks, by way of a buffer.
pub fn moves_blocks(code: Code) -> bool
    ensures { result ≡ moves_blocks code }
{
    match code {
        Code::Read | Code::Write => true,
        Code::Flush | Code::Barrier => false,
    }
}

/// The name of the buffer of a body.
pub fn page_named(body: &Body) -> Option<PageName>
    ensures { result ≡ page_named body.now }
{
    match body {
        Body::Page(page) => Some(PageName {
            pool: page.pool(),
            no: page.no(),
        }),
        _ => None,
    }
}

/// Whether a body is the buffer of a name, where there is one.
pub fn brings(name: &Option<PageName>, body: &Body) -> bool
    ensures { result ≡ brings name.now body.now }
{
    let Some(name) = name else {
        return true;
    };
    match body {
        Body::Page(page) => page.pool().0 == name.pool.0 && page.no() == name.no,
        _ => false,
    }
}

/// A request with another number.
pub fn numbered(number: u32, entry: (Item, Body)) -> (Item, Body)
    ensures { result ≡ numbered number entry }
{
    let mut request = request_of(&entry.0);
    request.id = number;
    (Item::Req(request), entry.1)
}

/// The answer to a request with this number, by the disk's response.
pub fn passed_on(id: u32, entry: (Item, Body)) -> (Item, Body)
    ensures { result ≡ passed_on id entry }
{
    let BlkResp { status, count, .. } = response_of(&entry.0);
    (Item::Resp(BlkResp { status, count, id }), entry.1)
}

// The block at which a partition begins.
fn first_block(part: Option<Part>) -> u32
    ensures { result ≡ first_block part }
{
    match part {
        Some(part) => part.first_block,
        None => 0,
    }
}

impl Holder {
    /// Whether the buffer of a request is the client's own.
    pub fn is_own(&self, entry: &(Item, Body)) -> bool
        ensures { result ≡ is_own self.now entry.now }
    {
        match &entry.1 {
            Body::Page(page) => {
                page.pool().0 == self.pool.0
                    && page.no() < self.buffers
                    && request_of(&entry.0).addr == page.no() as u64 * BLK_BUFFER_BYTES as u64
            }
            _ => false,
        }
    }

    /// Whether it is a read or a write whose buffer isn't the client's own.
    pub fn is_bad(&self, entry: &(Item, Body)) -> bool
        ensures { result ≡ is_bad self.now entry.now }
    {
        moves_blocks(request_of(&entry.0).code) && !self.is_own(entry)
    }

    /// How a request is judged, by the client's partition.
    pub fn judge(&self, part: Option<Part>, entry: &(Item, Body)) -> BlkStatus
        ensures { result ≡ judged self.now part entry.now }
    {
        let request = request_of(&entry.0);
        judge(
            self.is_own(entry),
            part,
            request.code,
            request.block,
            request.count,
        )
    }

    /// Whether a request is sent on to the disk.
    pub fn goes_on(&self, part: Option<Part>, entry: &(Item, Body)) -> bool
        ensures { result ≡ goes_on self.now part entry.now }
    {
        matches!(self.judge(part, entry), BlkStatus::Ok)
    }

    // What a read or a write asks of the disk.
    fn moved(&self, part: Option<Part>, request: BlkReq) -> BlkReq
        requires address { self.now.base + request.addr < 2 ^ 64 }
        requires block { first_block part + request.block < 2 ^ 32 }
        requires moves { moves_blocks request.code ≡ true }
        ensures { result ≡ asked_of_disk request.code self.now.base (first_block part) request }
    {
        BlkReq {
            addr: self.base + request.addr,
            block: first_block(part) + request.block,
            id: 0,
            count: request.count,
            code: request.code,
        }
    }

    /// A request that goes on, as it goes to the disk, its number aside.
    pub fn for_disk(&self, part: Option<Part>, entry: (Item, Body)) -> (Item, Body)
        requires goes { goes_on self.now part entry ≡ true }
        requires buffers { self.now.base + self.now.buffers * blk_buffer_bytes ≤ 2 ^ 62 }
        requires blocks { ForSome part (λ p. p.first_block + p.blocks < 2 ^ 32) }
        ensures { result ≡ for_disk self.now part entry }
    {
        let request = request_of(&entry.0);
        let request = if moves_blocks(request.code) {
            self.moved(part, request)
        } else {
            BlkReq {
                addr: self.base,
                code: request.code,
                ..NO_REQUEST
            }
        };
        (Item::Req(request), entry.1)
    }

    /// The answer to a request that isn't sent on.
    pub fn refuse(&self, part: Option<Part>, entry: (Item, Body)) -> (Item, Body)
        ensures { result ≡ refusal self.now part entry }
    {
        let status = self.judge(part, &entry);
        let id = request_of(&entry.0).id;
        let response = BlkResp {
            status,
            count: 0,
            id,
        };
        (Item::Resp(response), entry.1)
    }
}
