//! The lines of the disk: `disk` says how large it is, `bytes` what stands on it.
ghost use Rattle.std.specs.Prelude.{IfOk};
ghost use Rattle.trace_text.specs.Events.{disk_line, bytes_line};
ghost use Rattle.trace_text.specs.Reading.{IsRead};

use crate::reader::Reader;
use cargo_core::{Bytes, Memory, SECTOR_BYTES};
use line_text::{read_below, read_data, read_number};
use sdf_plan::Plan;
use std::alloc::Global;

/// The most sectors of a disk.
const MOST_SECTORS: u64 = 65536;

impl Reader {
    // `disk N`
    pub fn read_disk(&mut self, alloc: Global, plan: &Plan, word: &[u8]) -> Result<bool, Memory>
        ensures { IfOk result (λ good. IsRead self.old self.new good
            (disk_line plan.now word.now)) }
    {
        if plan.blk.is_none() {
            return Ok(false);
        }
        if self.disk_lines > 0 {
            return Ok(false);
        }
        let sectors = match read_below(word, MOST_SECTORS + 1) {
            Some(sectors) => sectors,
            None => return Ok(false),
        };
        if sectors < 8 {
            return Ok(false);
        }
        if sectors % 8 != 0 {
            return Ok(false);
        }
        self.trace.image = Bytes::from_vec(vec![in alloc; 0; SECTOR_BYTES * sectors as usize]?);
        self.disk_lines += 1;
        Ok(true)
    }

    // `bytes AT DATA`
    pub fn read_bytes(
        &mut self,
        alloc: Global,
        plan: &Plan,
        place: &[u8],
        word: &[u8],
    ) -> Result<bool, Memory>
        ensures { IfOk result (λ good. IsRead self.old self.new good
            (bytes_line plan.now place.now word.now)) }
    {
        if plan.blk.is_none() {
            return Ok(false);
        }
        if self.disk_lines == 0 {
            return Ok(false);
        }
        let end = self.trace.image.len();
        let at = match read_number(place) {
            Some(at) => at,
            None => return Ok(false),
        };
        if at > end as u64 {
            return Ok(false);
        }
        let bytes = match read_data(alloc, word, end - at as usize)? {
            Some(bytes) => bytes,
            None => return Ok(false),
        };
        self.trace.image.replace(at as usize, bytes.as_slice());
        Ok(true)
    }
}
