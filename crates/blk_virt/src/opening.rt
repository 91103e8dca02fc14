//! How the block virtualiser begins: it reads the disk's first block, which has the partitions.
ghost use Rattle.std.specs.Prelude.{◌≡◌, ◌+◌, ◌<◌, ◌≤◌, ◌^◌, ◌∷◌, [], ℕ, true, None, Some, List};
ghost use Rattle.std.specs.Prelude.{is_some};
ghost use Rattle.std.specs.Option.{ForSome, option_to_list};
ghost use Rattle.cargo_core.specs.Bodies.{buffers_of};
ghost use Rattle.wire_core.specs.Deeds.{Cargo};
ghost use Rattle.blk_mbr.specs.Partitions.{part_of, partitions_of};
ghost use Rattle.blk_virt.specs.Clients.{carried};
ghost use Rattle.blk_virt.specs.Openings.{block_cargo, first_read, has_sector, sector_of};
ghost use Rattle.blk_virt.specs.Openings.{is_reading, is_open, is_first, block_of};

use crate::{PageName, brings};
use blk_mbr::{Part, Partitions, partition_law, read_mbr};
use cargo_core::{BlkReq, Body, Code, Item, Page, PoolId, SECTOR_BYTES};
use turn_kit::count_held;

/// The disk's first block as it came, and the partitions that its first sector tells.
#[derive(Drop)]
pub struct Block {
    pub entry: (Item, Body),
    pub table: Partitions,
}

/// The first read. `own` names the virtualiser's buffer, which begins at the device address `base`;
/// `first` is the request until it is put, and `block` what came.
#[derive(Drop)]
pub struct Opening {
    pub own: PageName,
    pub base: u64,
    pub disk_sectors: u32,
    pub first: Option<(Item, Body)>,
    pub block: Option<Block>,
}

// Whether a body is a page that has a sector.
fn has_sector(body: &Body) -> bool
    ensures { result ≡ has_sector body.now }
{
    match body {
        Body::Page(page) => SECTOR_BYTES <= page.bytes().len(),
        _ => false,
    }
}

// The partitions that a body's first sector tells.
fn table_in(body: &Body, disk_sectors: u32) -> Partitions
    requires { has_sector body.now ≡ true }
    ensures { result ≡ partitions_of (sector_of body.now) disk_sectors }
{
    match body {
        Body::Page(page) => match page.bytes().first_chunk::<SECTOR_BYTES>() {
            Some(sector) => read_mbr(sector, disk_sectors),
            None => unreachable!(),
        },
        _ => unreachable!(),
    }
}

// How many buffers of a pool the entry that brought the first block carries.
fn block_held(pool: PoolId, block: &Option<Block>) -> u32
    ensures held { result ≡ carried pool (block_cargo block.now) }
    ensures one { result ≤ 1 }
{
    match block {
        Some(block) => body_held(pool, &block.entry.1),
        None => 0,
    }
}

// Whether a body is a buffer of a pool, as a number.
fn body_held(pool: PoolId, body: &Body) -> u32
    ensures held { result ≡ buffers_of pool (body.now ∷ []) }
    ensures one { result ≤ 1 }
{
    match body {
        Body::Page(page) if page.pool().0 == pool.0 => 1,
        _ => 0,
    }
}

impl Opening {
    /// Nothing read yet. The page is the virtualiser's own buffer.
    pub fn new(page: Page, base: u64, disk_sectors: u32) -> Opening
        ensures own { result.own ≡ record { pool = page.pool; no = page.no } }
        ensures base { result.base ≡ base }
        ensures sectors { result.disk_sectors ≡ disk_sectors }
        ensures first { result.first ≡ Some (first_read base page) }
        ensures block { result.block ≡ None }
    {
        let own = PageName {
            pool: page.pool(),
            no: page.no(),
        };
        let request = BlkReq {
            addr: base,
            block: 0,
            id: 0,
            count: 1,
            code: Code::Read,
        };
        Opening {
            own,
            base,
            disk_sectors,
            first: Some((Item::Req(request), Body::Page(page))),
            block: None,
        }
    }

    /// Whether the read isn't put yet.
    pub fn is_reading(&self) -> bool
        ensures { result ≡ is_reading self.now }
    {
        self.first.is_some()
    }

    /// Whether the partitions are known.
    pub fn is_open(&self) -> bool
        ensures { result ≡ is_open self.now }
    {
        self.block.is_some()
    }

    /// Whether a response is the one to the first read.
    pub fn is_first(&self, entry: &(Item, Body)) -> bool
        ensures { result ≡ is_first self.now entry.now }
    {
        self.first.is_none()
            && self.block.is_none()
            && brings(&Some(self.own), &entry.1)
            && has_sector(&entry.1)
    }

    /// The first block came.
    pub fn open(&mut self, entry: (Item, Body))
        requires { is_first self.old entry ≡ true }
        ensures { self.new ≡ record self.old
            { block = Some (block_of self.old.disk_sectors entry) } }
    {
        let table = table_in(&entry.1, self.disk_sectors);
        self.block = Some(Block { entry, table });
    }

    /// How many buffers of a pool it has here: that of the read which isn't put yet, and that of
    /// the block which came.
    pub fn held(&self, pool: PoolId) -> u32
        ensures held { result ≡ carried pool (option_to_list self.now.first)
            + carried pool (block_cargo self.now.block) }
        ensures few { result ≤ 2 }
    {
        count_held(pool, &self.first) + block_held(pool, &self.block)
    }

    /// The partition of an entry of the table.
    pub fn part(&self, partition: u8) -> Option<Part>
        requires entry { partition < 4 }
        requires told { (b : Block) → self.now.block ≡ Some b → (y : Cargo)
            × (b ≡ block_of self.now.disk_sectors y) }
        ensures part { (y : Cargo) → self.now.block ≡ Some (block_of self.now.disk_sectors y)
            → result ≡ part_of (sector_of y.1) self.now.disk_sectors partition }
        ensures within { ForSome result (λ p. p.first_block + p.blocks < 2 ^ 32) }
    {
        partition_law();
        let _sectors = self.disk_sectors;
        match &self.block {
            Some(block) => block.table.part(partition),
            None => None,
        }
    }
}
