//! The text of what a play of a switch reports.

ghost use Rattle.std.specs.Prelude.{◌≡◌, ◌∷◌, [], ◌++◌, IfOk, OnOk, string_bytes};
ghost use Rattle.report_text.specs.Lines.{text_of};
ghost use Rattle.report_text.specs.Reports.{each_numbered};
ghost use Rattle.switch_play.specs.Texts.{frames_line, frames_lines, lost_line, ports_text};

use cargo_core::{FrameLog, Memory, Series};
use line_text::ports_text::PortReport;
use report_text::{add_frames, add_head, add_pools};
use std::alloc::Global;

// Appends how many frames a port recorded.
fn add_count(to: &mut String, c: usize, frames: &FrameLog) -> Result<(), Memory>
    ensures { OnOk result (string_bytes to.new ≡ string_bytes to.old
        ++ text_of (frames_line c frames.now ∷ [])) }
{
    write!(to, "port {} frames {}\n", c, frames.len())?;
    Ok(())
}

// Appends what a port recorded.
fn add_port(alloc: Global, to: &mut String, c: usize, frames: &FrameLog) -> Result<(), Memory>
    ensures { OnOk result (string_bytes to.new ≡ string_bytes to.old
        ++ text_of (frames_lines c frames.now)) }
{
    add_count(to, c, frames)?;
    add_frames(alloc, to, frames)
}

// Appends what each port recorded.
fn add_ports(alloc: Global, to: &mut String, ports: &Series<FrameLog>) -> Result<(), Memory>
    ensures { OnOk result (string_bytes to.new ≡ string_bytes to.old
        ++ text_of (each_numbered frames_lines 0 ports.now)) }
{
    for c in 0..ports.len() {
        add_port(alloc, to, c, ports.get(c))?;
    }
    Ok(())
}

// Appends how many frames no port got.
fn add_lost(to: &mut String, lost: u64) -> Result<(), Memory>
    ensures { OnOk result (string_bytes to.new ≡ string_bytes to.old
        ++ text_of (lost_line lost ∷ [])) }
{
    write!(to, "lost {}\n", lost)?;
    Ok(())
}

/// The text of what a play of a switch reports: how it ended and its steps, for each port its
/// frames, a line each, where the buffers of each pool are, and how many frames no port got. Bytes
/// print as lower-case hexadecimal. The spellings are this project's own.
pub fn write_ports(alloc: Global, report: &PortReport) -> Result<String, Memory>
    ensures { IfOk result (λ s. string_bytes s ≡ ports_text report.now) }
{
    let mut text = String::new(alloc);
    add_head(&mut text, report.quiet, report.steps)?;
    add_ports(alloc, &mut text, &report.records)?;
    add_pools(&mut text, &report.pools)?;
    add_lost(&mut text, report.lost)?;
    Ok(text)
}
