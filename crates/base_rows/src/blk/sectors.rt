//! First sectors of disks that are made by hand.
/// How many bytes a sector has, and how many an entry of its table.
pub const SECTOR_BYTES: usize = 512;

pub const ENTRY_BYTES: usize = 16;

/// An entry of a type, from a sector on; its status and addresses are zeros.
pub fn entry(kind: u8, first: u32, sectors: u32) -> [u8; ENTRY_BYTES] {
    let mut bytes = [0; ENTRY_BYTES];
    bytes[4] = kind;
    bytes[8..12].copy_from_slice(&first.to_le_bytes());
    bytes[12..16].copy_from_slice(&sectors.to_le_bytes());
    bytes
}

/// A signed sector whose table has these two entries, and two empty ones.
pub fn sector(one: [u8; ENTRY_BYTES], other: [u8; ENTRY_BYTES]) -> [u8; SECTOR_BYTES] {
    let mut bytes = [0; SECTOR_BYTES];
    bytes[446..462].copy_from_slice(&one);
    bytes[462..478].copy_from_slice(&other);
    bytes[510] = 0x55;
    bytes[511] = 0xAA;
    bytes
}
