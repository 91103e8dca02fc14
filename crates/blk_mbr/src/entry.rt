//! One entry of a partition table.
ghost use Rattle.std.specs.Prelude.{◌≡◌, ◌+◌, ◌*◌, ◌<◌, length};
ghost use Rattle.cargo_core.specs.Blocks.{sector_bytes};
ghost use Rattle.blk_mbr.specs.Sectors.{number_at, entry_of, is_used, is_protective, is_extended};
ghost use Rattle.blk_mbr.specs.Partitions.{end_of, do_clash, is_usable, blocks_of};

use crate::Part;
use cargo_core::SECTOR_BYTES;

/// Where the table begins in the sector, and how many bytes an entry of it has.
const TABLE_AT: usize = 446;

const ENTRY_BYTES: usize = 16;

/// How many sectors a block has.
const BLOCK_SECTORS: u32 = 8;

/// What an entry says that is judged: its type, its first sector, and how many sectors it has. Its
/// status and its addresses by cylinder, head and sector aren't.
#[derive(Clone, Copy, Debug, PartialEq, Eq)]
pub struct Entry {
    pub first: u32,
    pub sectors: u32,
    pub kind: u8,
}

// The number that stands there in four bytes, the lowest first.
fn number_at(sector: &[u8; SECTOR_BYTES], at: usize) -> u32
    requires { at + 3 < sector_bytes }
    ensures { result ≡ number_at sector.now at }
{
    u32::from_le_bytes([sector[at], sector[at + 1], sector[at + 2], sector[at + 3]])
}

impl Entry {
    /// The entry of a number, from 0 to 3.
    pub fn read(sector: &[u8; SECTOR_BYTES], n: usize) -> Entry
        requires { n < 4 }
        ensures { result ≡ entry_of sector.now n }
    {
        let at = TABLE_AT + ENTRY_BYTES * n;
        Entry {
            first: number_at(sector, at + 8),
            sectors: number_at(sector, at + 12),
            kind: sector[at + 4],
        }
    }

    /// Whether it isn't empty.
    pub fn is_used(&self) -> bool
        ensures { result ≡ is_used self.now }
    {
        self.kind != 0x00
    }

    /// Whether it says that another table rules the disk.
    pub fn is_protective(&self) -> bool
        ensures { result ≡ is_protective self.now }
    {
        self.kind == 0xEE
    }

    /// Whether it says that another table stands in its sectors.
    pub fn is_extended(&self) -> bool
        ensures { result ≡ is_extended self.now }
    {
        self.kind == 0x05 || self.kind == 0x0F
    }

    /// The sector before which it ends, which may have more than 32 bits.
    pub fn end(&self) -> u64
        ensures { result ≡ end_of self.now }
    {
        self.first as u64 + self.sectors as u64
    }

    /// Whether both entries aren't empty and share a sector.
    pub fn clashes(&self, other: &Entry) -> bool
        ensures { result ≡ do_clash self.now other.now }
    {
        self.is_used()
            && other.is_used()
            && (self.first.max(other.first) as u64) < self.end().min(other.end())
    }

    /// Whether it gives a partition of a disk of so many sectors, where its table can be trusted.
    pub fn is_usable(&self, disk_sectors: u32) -> bool
        ensures { result ≡ is_usable disk_sectors self.now }
    {
        self.is_used()
            && !self.is_extended()
            && self.first >= BLOCK_SECTORS
            && self.first % BLOCK_SECTORS == 0
            && self.end() <= disk_sectors as u64
    }

    /// Its whole blocks.
    pub fn blocks(&self) -> Part
        ensures { result ≡ blocks_of self.now }
    {
        Part {
            first_block: self.first / BLOCK_SECTORS,
            blocks: self.sectors / BLOCK_SECTORS,
        }
    }
}
