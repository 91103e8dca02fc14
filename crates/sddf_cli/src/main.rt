//! The program: its words are the arguments behind its name, its texts are files, and its answer
//! goes to standard output.
#![tactic(auto)]

use sddf_top::serve_host;
use std::process::ExitCode;

fn main(rt: HostRuntime) -> ExitCode {
    ExitCode::from(serve_host(&rt))
}
