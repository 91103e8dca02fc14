//! What the lines of a text gave so far.
ghost use Rattle.std.specs.Prelude.{◌≡◌, ◌==◌, [], IfOk};
ghost use Rattle.i2c_text.specs.declared.line.Line.TheVariants as Says;
ghost use Rattle.i2c_text.specs.Reading.{reader_after, IsTaken, IsRead, HasLists};
ghost use Rattle.i2c_text.specs.Lines.{meaning};

use crate::bus::{Bus, BusAsk};
use crate::line::{Line, read_line};
use cargo_core::{Bytes, Memory, Series};
use line_text::{add_item, no_items};
use std::alloc::Global;

/// The most requests of all clients.
const ASKS: u64 = 1024;

// What the lines so far gave, whether there was one that isn't skipped, and how many requests.
#[derive(Drop)]
pub struct Reader {
    pub bus: Bus,
    pub begun: bool,
    pub asked: u64,
}

impl Reader {
    // The reader before the first line.
    #[tactic(auto, unfolding(crate::specs::Buses::bus_from))]
    pub fn new(alloc: Global) -> Reader
        ensures { result ≡ reader_after [] }
    {
        Reader {
            bus: Bus {
                clients: 0,
                devices: Bytes::new(alloc),
                asks: Series::new(alloc),
            },
            begun: false,
            asked: 0,
        }
    }

    // Reads one line; false where it is bad.
    pub fn read_line(&mut self, alloc: Global, line: &[u8]) -> Result<bool, Memory>
        requires { HasLists self.old }
        ensures { IfOk result (λ good. IsRead self.old self.new good (meaning line.now)) }
    {
        match read_line(alloc, line)? {
            Some(Line::Skipped) => Ok(true),
            Some(Line::Clients(count)) => self.take_clients(alloc, count),
            Some(Line::Device(address)) => self.take_device(address),
            Some(Line::Ask(client, ask)) => self.take_ask(alloc, client, ask),
            None => Ok(false),
        }
    }

    // `clients N`
    fn take_clients(&mut self, alloc: Global, count: u8) -> Result<bool, Memory>
        ensures { IfOk result (λ good. IsTaken self.old self.new good (Says.Clients count)) }
    {
        if self.begun {
            return Ok(false);
        }
        self.bus.asks = no_items(alloc, usize::from(count))?;
        self.bus.clients = u32::from(count);
        self.begun = true;
        Ok(true)
    }

    // `device A`
    fn take_device(&mut self, address: u8) -> Result<bool, Memory>
        ensures { IfOk result (λ good. IsTaken self.old self.new good (Says.Device address)) }
    {
        if self.bus.devices.as_slice().contains(&address) {
            return Ok(false);
        }
        self.bus.devices.push(address)?;
        self.begun = true;
        Ok(true)
    }

    // `claim C A`, `read C A N`, `write C A HEX`
    fn take_ask(&mut self, alloc: Global, client: u8, ask: BusAsk) -> Result<bool, Memory>
        requires { HasLists self.old }
        ensures { IfOk result (λ good. IsTaken self.old self.new good (Says.Ask client ask)) }
    {
        if u32::from(client) >= self.bus.clients {
            return Ok(false);
        }
        if self.asked >= ASKS {
            return Ok(false);
        }
        add_item(alloc, &mut self.bus.asks, usize::from(client), ask)?;
        self.begun = true;
        self.asked += 1;
        Ok(true)
    }

    // Whether no line gave clients.
    pub fn lacks_clients(&self) -> bool
        ensures { result ≡ (self.now.bus.clients == 0) }
    {
        self.bus.clients == 0
    }
}
