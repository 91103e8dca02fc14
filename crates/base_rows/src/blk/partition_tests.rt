//! Which partitions a sector gives.
use crate::blk::{ENTRY_BYTES, SECTOR_BYTES, entry, sector};
use blk_mbr::{Part, read_mbr};

/// An entry that says nothing.
const EMPTY: [u8; ENTRY_BYTES] = [0; ENTRY_BYTES];

// The first partition of a sector with these two entries.
fn first_of(one: [u8; ENTRY_BYTES], other: [u8; ENTRY_BYTES], disk_sectors: u32) -> Option<Part> {
    let sector = sector(one, other);
    let partitions = read_mbr(&sector, disk_sectors);
    partitions.part(0)
}

// The partition of a Linux entry alone on its disk.
fn alone(first: u32, sectors: u32, disk_sectors: u32) -> Option<Part> {
    first_of(entry(0x83, first, sectors), EMPTY, disk_sectors)
}

// A partition, to compare with.
fn part(first_block: u32, blocks: u32) -> Option<Part> {
    Some(Part {
        first_block,
        blocks,
    })
}

#[test]
fn two_entries_give_two_partitions(rt: HostRuntime) {
    let mut bytes = [0; SECTOR_BYTES];
    bytes[450] = 0x83;
    bytes[454] = 0x08;
    bytes[458] = 0x10;
    bytes[466] = 0x83;
    bytes[470] = 0x18;
    bytes[474] = 0x08;
    bytes[510] = 0x55;
    bytes[511] = 0xAA;
    let partitions = read_mbr(&bytes, 32);
    assert!(rt; partitions.part(0) == part(1, 2));
    assert!(rt; partitions.part(1) == part(3, 1));
    assert!(rt; partitions.part(2).is_none());
    assert!(rt; partitions.part(3).is_none());
}

#[test]
fn types_of_entries(rt: HostRuntime) {
    for (kind, want) in [
        (0x83, part(1, 1)),
        (0x0B, part(1, 1)),
        (0x00, None),
        (0x05, None),
        (0x0F, None),
        (0xEE, None),
    ] {
        let got = first_of(entry(kind, 8, 8), entry(0x83, 16, 8), 64);
        assert!(rt; got == want, "type {kind}");
    }
    let extended = first_of(entry(0x83, 8, 8), entry(0x05, 16, 8), 64);
    assert!(rt; extended == part(1, 1));
    let protective = first_of(entry(0x83, 8, 8), entry(0xEE, 1, u32::MAX), 64);
    assert!(rt; protective.is_none());
}

#[test]
fn bounds_of_entries(rt: HostRuntime) {
    for (first, sectors, disk_sectors, want) in [
        (0, 8, 64, None),
        (7, 8, 64, None),
        (8, 8, 64, part(1, 1)),
        (9, 8, 64, None),
        (25, 8, 64, None),
        (24, 15, 64, part(3, 1)),
        (24, 7, 64, part(3, 0)),
        (8, 56, 64, part(1, 7)),
        (8, 57, 64, None),
        (0xFFFF_FFF8, 16, u32::MAX, None),
        (8, u32::MAX, u32::MAX, None),
    ] {
        let got = alone(first, sectors, disk_sectors);
        assert!(rt;
            got == want,
            "{sectors} sectors from {first} of {disk_sectors}"
        );
    }
}

#[test]
fn entries_that_share_a_sector(rt: HostRuntime) {
    for (kind, first, sectors, want) in [
        (0x83, 24, 8, part(1, 2)),
        (0x83, 23, 8, None),
        (0x83, 1, 7, part(1, 2)),
        (0x83, 1, 8, None),
        (0x05, 16, 4, None),
        (0x00, 16, 4, part(1, 2)),
        (0x83, 16, 0, part(1, 2)),
    ] {
        let got = first_of(entry(0x83, 8, 16), entry(kind, first, sectors), 64);
        assert!(rt;
            got == want,
            "beside type {kind}, {sectors} sectors from {first}"
        );
    }
}

#[test]
fn a_sector_without_its_signature_gives_none(rt: HostRuntime) {
    for (first, second, want) in [
        (0x55, 0x55, None),
        (0x55, 0xAA, part(1, 1)),
        (0xAA, 0xAA, None),
    ] {
        let mut bytes = sector(entry(0x83, 8, 8), EMPTY);
        bytes[510] = first;
        bytes[511] = second;
        assert!(rt;
            read_mbr(&bytes, 64).part(0) == want,
            "signed {first} {second}"
        );
    }
}
