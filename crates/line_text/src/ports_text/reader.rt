//! What the lines of a text gave so far.
ghost use Rattle.std.specs.Prelude.{◌≡◌, [], length, nat_lt, IfOk};
ghost use Rattle.frame_core.specs.declared.mac.Mac.{Mac};
ghost use Rattle.line_text.specs.declared.ports_text.line.Line.TheVariants as Says;
ghost use Rattle.line_text.specs.PortsText.Lines.{meaning};
ghost use Rattle.line_text.specs.PortsText.Given.{is_among};
ghost use Rattle.line_text.specs.PortsText.Reading.{reader_after, IsTaken, IsRead, HasLists};

use crate::add_frame;
use crate::ports_text::line::{Line, read_line};
use crate::ports_text::ports::Ports;
use cargo_core::{Bytes, FrameLog, Memory, Series};
use frame_core::Mac;
use std::alloc::Global;

/// The fewest ports.
const FEWEST: usize = 2;

/// The most ports.
const PORTS: usize = 8;

/// The most frames of all ports.
const SENDS: u64 = 1024;

// What the lines so far gave, and how many frames.
#[derive(Drop)]
pub struct Reader {
    pub ports: Ports,
    pub sent: u64,
}

// Whether an address is one of these.
fn is_among(mac: Mac, macs: &[Mac]) -> bool
    ensures { result ≡ is_among mac macs.now }
{
    macs.contains(&mac)
}

impl Reader {
    // The reader before the first line.
    #[tactic(auto, unfolding(crate::specs::PortsText::Given::ports_from))]
    pub fn new(alloc: Global) -> Reader
        ensures { result ≡ reader_after [] }
    {
        Reader {
            ports: Ports {
                macs: Series::new(alloc),
                sends: Series::new(alloc),
            },
            sent: 0,
        }
    }

    // Reads one line; false where it is bad.
    pub fn read_line(&mut self, alloc: Global, line: &[u8]) -> Result<bool, Memory>
        requires { HasLists self.old }
        ensures { IfOk result (λ good. IsRead self.old self.new good (meaning line.now)) }
    {
        match read_line(alloc, line)? {
            Some(Line::Skipped) => Ok(true),
            Some(Line::Port(mac)) => self.take_port(alloc, mac),
            Some(Line::Send(port, frame)) => self.take_send(alloc, port, &frame),
            None => Ok(false),
        }
    }

    // `port MAC`
    fn take_port(&mut self, alloc: Global, mac: Mac) -> Result<bool, Memory>
        ensures { IfOk result (λ good. IsTaken self.old self.new good (Says.Port mac)) }
    {
        if self.sent > 0 || self.ports.macs.len() >= PORTS {
            return Ok(false);
        }
        if is_among(mac, self.ports.macs.as_slice()) {
            return Ok(false);
        }
        self.ports.macs.push(mac)?;
        self.ports.sends.push(FrameLog::new(alloc))?;
        Ok(true)
    }

    // `send C DATA`
    fn take_send(&mut self, alloc: Global, port: u8, frame: &Bytes) -> Result<bool, Memory>
        requires { HasLists self.old }
        ensures { IfOk result (λ good. IsTaken self.old self.new good
            (Says.Send port frame.now)) }
    {
        let port = usize::from(port);
        if port >= self.ports.macs.len() || self.sent >= SENDS {
            return Ok(false);
        }
        add_frame(alloc, &mut self.ports.sends, port, frame.as_slice())?;
        self.sent += 1;
        Ok(true)
    }

    // Whether there are too few ports.
    pub fn lacks_ports(&self) -> bool
        ensures { result ≡ nat_lt (length self.now.ports.macs) 2 }
    {
        self.ports.macs.len() < FEWEST
    }
}
