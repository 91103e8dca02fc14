//! What a trace gives the devices and the clients.
ghost use Rattle.std.specs.Prelude.{◌≡◌, ◌<◌, length, slice_get, Some};
ghost use Rattle.trace_text.specs.Traces.{acts_of};

use cargo_core::{Act, Ask, Bytes, FrameLog, Series};

/// What a trace gives the devices and the clients, each list in the order of the lines.
#[derive(Debug, Drop)]
pub struct Trace {
    /// The frames that the Ethernet device receives.
    pub frames: FrameLog,
    /// The bytes that the UART receives.
    pub input: Bytes,
    /// The frames that each network client sends.
    pub sends: Series<FrameLog>,
    /// The bytes that each serial client says.
    pub says: Series<Bytes>,
    /// The requests of each block client.
    pub asks: Series<Series<Ask>>,
    /// The bytes of the disk; none where there is no disk.
    pub image: Bytes,
    /// The acts of each network client, of which a hostile one alone has any.
    pub net_acts: Series<Series<Act>>,
    /// The acts of each serial client.
    pub serial_acts: Series<Series<Act>>,
    /// The acts of each block client.
    pub blk_acts: Series<Series<Act>>,
}

impl Trace {
    /// The frames that the Ethernet device receives.
    pub fn frames(&self) -> &FrameLog
        ensures { result.now ≡ self.now.frames }
    {
        &self.frames
    }

    /// The bytes that the UART receives.
    pub fn input(&self) -> &[u8]
        ensures { result.now ≡ self.now.input }
    {
        self.input.as_slice()
    }

    /// The frames that a network client sends; the client must be one of its class.
    pub fn sends(&self, client: u32) -> &FrameLog
        requires { client < length self.now.sends }
        ensures { slice_get self.now.sends client ≡ Some result.now }
    {
        self.sends.get(client as usize)
    }

    /// The bytes that a serial client says; the client must be one of its class.
    pub fn says(&self, client: u32) -> &[u8]
        requires { client < length self.now.says }
        ensures { slice_get self.now.says client ≡ Some result.now }
    {
        self.says.get(client as usize).as_slice()
    }

    /// The requests of a block client; the client must be one of its class.
    pub fn asks(&self, client: u32) -> &[Ask]
        requires { client < length self.now.asks }
        ensures { slice_get self.now.asks client ≡ Some result.now }
    {
        self.asks.get(client as usize).as_slice()
    }

    /// The acts of a client of a class, 0 for network, 1 for serial and 2 for block clients; the
    /// client must be one of its class. A hostile client alone has any.
    pub fn acts(&self, class: u8, client: u32) -> &[Act]
        requires { client < length (acts_of self.now class) }
        ensures { slice_get (acts_of self.now class) client ≡ Some result.now }
    {
        let lists = match class {
            0 => &self.net_acts,
            1 => &self.serial_acts,
            2 => &self.blk_acts,
            _ => unreachable!(),
        };
        lists.get(client as usize).as_slice()
    }

    /// The bytes of the disk; none where there is no disk.
    pub fn image(&self) -> &[u8]
        ensures { result.now ≡ self.now.image }
    {
        self.image.as_slice()
    }
}
