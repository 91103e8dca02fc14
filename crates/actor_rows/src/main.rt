//! Worked rows of one actor at a time, at queues in lists whose other ends are worked by hand; and
//! the owner table of two journals. Each line says what a row shows, and whether it is so.
#![tactic(auto)]

mod alone;
mod drops;
mod owners;
mod receiving;
mod sending;
mod serial;
mod sizes;
mod starts;
mod telling;

use drops::print_drops;
use owners::{broadcast_rows, reading_rows, wrong_rows};
use receiving::print_receiving;
use sending::print_sending;
use serial::print_serial;
use sizes::print_sizes;
use starts::print_starts;
use std::io;

// What these rows show is in their contracts.
fn owner_rows() {
    broadcast_rows();
    wrong_rows();
    reading_rows();
}

fn main(rt: HostRuntime) -> io::Result<()> {
    owner_rows();
    print_starts(&rt)?;
    print_receiving(&rt)?;
    print_serial(&rt)?;
    print_drops(&rt)?;
    print_sending(&rt)?;
    print_sizes(&rt)
}
