//! The program beside the main one: its words are the arguments behind its name, its texts are
//! files, what it shows goes to standard output, and the line of a refusal to standard error.
#![tactic(auto)]

use std::process::ExitCode;
use view_plays::plays_host;

fn main(rt: HostRuntime) -> ExitCode {
    ExitCode::from(plays_host(&rt))
}
