//! `report_text`: what is seen of a play, as a text.

use cargo_core::{Bytes, Memory, Series};
use expect_core::Report;
use report_text::write_report;
use std::alloc::Global;

/// The report of a play of the serial class alone, in which three bytes were sent on the line and
/// the one client got none.
pub fn show_report(alloc: Global) -> Result<String, Memory> {
    let mut serial = Series::new(alloc);
    serial.push(Bytes::new(alloc))?;
    let report = Report {
        quiet: true,
        steps: 12,
        wire: None,
        net: Series::new(alloc),
        line: Some(Bytes::from_slice(alloc, &[0x61, 0x62, 0x63])?),
        serial,
        blk: Series::new(alloc),
        pools: Series::new(alloc),
        bad: 0,
    };
    write_report(alloc, &report)
}
