//! The lines of the disk, and of what is asked of it.
ghost use Rattle.std.specs.Prelude.{◌≡◌, ◌++◌, OnOk, string_bytes};
ghost use Rattle.workload.specs.Draws.{drawn};
ghost use Rattle.workload.specs.Lines.{disk_lines, write_line, read_line, blk_lines};
ghost use Rattle.workload.specs.Generated.{numbered};

use crate::draws::Draws;
use cargo_core::Memory;
use std::alloc::Global;

// Appends the lines of the disk.
pub fn add_disk(to: &mut String) -> Result<(), Memory>
    ensures { OnOk result (string_bytes to.new ≡ string_bytes to.old ++ disk_lines) }
{
    to.push_str("disk 64\n")?;
    to.push_str("bytes 446 00000000830000000800000010000000\n")?;
    to.push_str("bytes 462 00000000830000001800000008000000\n")?;
    to.push_str("bytes 510 55aa\n")?;
    Ok(())
}

// Appends the line of a block that client 0 writes.
#[tactic(auto, unfolding(crate::specs::Lines::write_line))]
fn add_write(alloc: Global, to: &mut String, block: u64, value: u8) -> Result<(), Memory>
    ensures { OnOk result (string_bytes to.new ≡ string_bytes to.old ++ write_line block value) }
{
    let digits = hex::encode(alloc, &[value])?;
    write!(to, "blk 0 write {} 1 4096*{}\n", block, digits.as_str())?;
    Ok(())
}

// Appends the line of a block that client 0 reads.
#[tactic(auto, unfolding(crate::specs::Lines::read_line))]
fn add_read(to: &mut String, block: u64) -> Result<(), Memory>
    ensures { OnOk result (string_bytes to.new ≡ string_bytes to.old ++ read_line block) }
{
    write!(to, "blk 0 read {} 1\n", block)?;
    Ok(())
}

// Appends the lines of three requests.
fn add_three(alloc: Global, to: &mut String, i: u8, d: u64) -> Result<(), Memory>
    ensures { OnOk result (string_bytes to.new ≡ string_bytes to.old ++ blk_lines i d) }
{
    add_write(alloc, to, d % 2, i)?;
    add_read(to, d % 2)?;
    to.push_str("blk 1 read 0 1\n")?;
    Ok(())
}

// Appends the lines of 96 requests.
pub fn add_asked(alloc: Global, to: &mut String, draws: &mut Draws) -> Result<(), Memory>
    ensures { OnOk result (string_bytes to.new
        ≡ string_bytes to.old ++ numbered blk_lines 0 (drawn draws.old.x 32)) }
{
    for i in 0..32u64 {
        let d = draws.draw();
        add_three(alloc, to, i as u8, d)?;
    }
    Ok(())
}
