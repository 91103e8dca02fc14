//! The partitions that a table gives.
ghost use Rattle.std.specs.Prelude.{◌≡◌, ◌↔◌, ◌<◌, ℕ, Some, List, not, slice_get};
ghost use Rattle.std.specs.List.{list_all, list_any};
ghost use Rattle.blk_mbr.specs.Sectors.{is_signed, is_protective};
ghost use Rattle.blk_mbr.specs.Partitions.{do_clash, are_apart, is_trusted, given_part, part_of};
ghost use Rattle.blk_mbr.specs.Partitions.{partitions_of, IsPartition};
ghost use Rattle.blk_mbr.specs.declared.part.Part.{Part};

use crate::{Entry, Part};
use cargo_core::SECTOR_BYTES;
use std::marker::Model;

/// The partitions of a disk, one for each of the four entries of its table that gives one.
#[derive(Debug, Drop)]
pub struct Partitions {
    parts: [Option<Part>; 4],
}

impl Model for Partitions {
    ghost use Rattle.std.specs.Prelude.{List, Option};
    ghost use Rattle.blk_mbr.specs.declared.part.Part.{Part};

    ghost Value = { List (Option Part) };

    ghost view = { λ p. p.parts };
}

// Whether the entry shares no sector with one of the others; those that are empty don't count.
fn is_apart(entry: &Entry, others: &[Entry]) -> bool
    ensures { result ≡ list_all (λ other. not (do_clash entry.now other)) others.now }
{
    others.iter().all(|other| !entry.clashes(other))
}

// Whether no two of these entries share a sector.
fn are_apart(entries: &[Entry]) -> bool
    ensures { result ≡ are_apart entries.now }
{
    match entries {
        [] => true,
        [first, rest @ ..] => is_apart(first, rest) && are_apart(rest),
    }
}

// Whether an entry says that another table rules the disk.
fn has_protective(entries: &[Entry]) -> bool
    ensures { result ≡ list_any is_protective entries.now }
{
    entries.iter().any(|entry| entry.is_protective())
}

// Whether the table can be trusted.
fn is_trusted(signed: bool, entries: &[Entry]) -> bool
    ensures { result ≡ is_trusted signed entries.now }
{
    signed && !has_protective(entries) && are_apart(entries)
}

// Whether the last two bytes say that the sector has a table.
fn is_signed(sector: &[u8; SECTOR_BYTES]) -> bool
    ensures { result ≡ is_signed sector.now }
{
    sector[510] == 0x55 && sector[511] == 0xAA
}

// The partition of an entry, where the table can be trusted.
fn given_part(trusted: bool, disk_sectors: u32, entry: &Entry) -> Option<Part>
    ensures { result ≡ given_part trusted disk_sectors entry.now }
{
    if trusted && entry.is_usable(disk_sectors) {
        Some(entry.blocks())
    } else {
        None
    }
}

/// The partitions of a disk with this first sector and so many sectors.
pub fn read_mbr(sector: &[u8; SECTOR_BYTES], disk_sectors: u32) -> Partitions
    ensures { result ≡ partitions_of sector.now disk_sectors }
{
    let entries = [
        Entry::read(sector, 0),
        Entry::read(sector, 1),
        Entry::read(sector, 2),
        Entry::read(sector, 3),
    ];
    let trusted = is_trusted(is_signed(sector), &entries);
    Partitions {
        parts: [
            given_part(trusted, disk_sectors, &entries[0]),
            given_part(trusted, disk_sectors, &entries[1]),
            given_part(trusted, disk_sectors, &entries[2]),
            given_part(trusted, disk_sectors, &entries[3]),
        ],
    }
}

impl Partitions {
    /// The partition of an entry, by its number. None where the table can't be trusted: it isn't
    /// signed, an entry is protective, or two share a sector. None also where the entry is empty or
    /// extended, begins in the first block or at none, or ends past the disk.
    pub fn part(&self, entry: u8) -> Option<Part>
        requires { entry < 4 }
        ensures at { slice_get self.now entry ≡ Some result }
        ensures of { (sector : List ℕ) (disk_sectors : ℕ)
            → self.now ≡ partitions_of sector disk_sectors
            → result ≡ part_of sector disk_sectors entry }
    {
        self.parts[entry as usize]
    }
}

/// A partition is given exactly where sector, entry and disk are as they must be.
pub fn partition_law()
    ensures { (sector : List ℕ) (disk_sectors n : ℕ) (part : Part) → n < 4
        → (part_of sector disk_sectors n ≡ Some part) ↔ IsPartition sector disk_sectors n part }
{}
