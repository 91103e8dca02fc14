//! The programs of the clients. A serial client says its script and records what it gets: a reader
//! is one whose script is empty, a speaker any other. A network client records the frames that
//! come; a source sends those of its script too, and an echo answers each. A block client asks for
//! blocks and records what comes back. A hostile client of any class plays its acts. The programs
//! are this project's own; which queues a client has is sDDF's.
#![tactic(auto)]

ghost use Rattle.std.specs.Prelude.{◌≡◌};
ghost use Rattle.std.specs.Borrow.{Lends, sem};
ghost use Rattle.wire_core.specs.Lists.{nothing_passed};
ghost use Rattle.device_model.specs.SerialTerminal.Terminals.{IsNewTerminal, TerminalStandsFor};
ghost use Rattle.device_model.specs.contracts.serial_terminal.Terminal.{the_row as terminal_row};
ghost use Rattle.client_programs.specs.contracts.SerialClient.{the_row};

pub mod blk;
pub mod net;
pub mod rogue;

pub use crate::blk::BlkClient;
pub use crate::net::NetClient;
pub use crate::rogue::Rogue;
use cargo_core::Bytes;
use device_model::serial_terminal::Terminal;
pub use net::NetProgram;
use std::alloc::Global;
use std::ops::{Deref, DerefMut};
use wire_core::QueueId;

/// A serial client, reader or speaker: a terminal that says its script to the virtualiser.
#[derive(Drop)]
pub struct SerialClient {
    pub terminal: Terminal,
}

impl SerialClient {
    /// A client in its start state: it records what it takes from `rx`, and puts the bytes of
    /// `script` to `tx`.
    pub fn new(alloc: Global, rx: QueueId, tx: QueueId, script: Bytes) -> SerialClient
        ensures new { IsNewTerminal rx tx script result.terminal }
        ensures stands { TerminalStandsFor result.terminal nothing_passed }
    {
        SerialClient {
            terminal: Terminal::new(alloc, rx, tx, script),
        }
    }
}

/// All else that a client does is what its terminal does; `got` is its record.
impl Deref for SerialClient {
    type Target = Terminal;

    ghost deref_gives = { λ c t. t ≡ c.terminal };

    fn deref(&self) -> &Terminal
        ensures { result.now ≡ self.now.terminal }
    {
        &self.terminal
    }
}

impl DerefMut for SerialClient {
    ghost deref_mut_gives = { λ c t. t ≡ c.terminal };

    fn deref_mut(&mut self) -> &mut Terminal
        ensures* writes_back { sem 𝓛 (Lends the_row terminal_row self.entry result
            (λ t. record { terminal = t })) }
        ensures value { result.now ≡ self.old.terminal }
    {
        &mut self.terminal
    }
}
