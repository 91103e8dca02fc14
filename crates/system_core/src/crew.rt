//! Who is who in a class: its device and its clients.
ghost use Rattle.std.specs.Prelude.{◌≡◌, []};
ghost use Rattle.system_core.specs.States.{crew_of, nobody};

use std::alloc::Global;
use std::marker::Model;

/// Which of the actors are the device and the clients of a class, these in their order.
#[derive(Drop)]
pub struct Crew {
    device: Option<u16>,
    clients: Vec<u16>,
}

impl Model for Crew {
    ghost use Rattle.system_core.specs.Shows.{Crew as Seen};

    ghost Value = { Seen };

    ghost view = { λ c. record { device = c.device; clients = c.clients.items } };
}

impl Crew {
    /// The places of a device and of clients among the actors.
    pub fn new(device: Option<u16>, clients: Vec<u16>) -> Crew
        ensures { result ≡ crew_of device clients.items }
    {
        Crew { device, clients }
    }

    /// A class that isn't there.
    pub fn nobody(alloc: Global) -> Crew
        ensures { result ≡ nobody }
    {
        Crew::new(None, Vec::new(alloc))
    }

    /// The place of its device, where it has one.
    pub fn device(&self) -> Option<u16>
        ensures { result ≡ self.now.device }
    {
        self.device
    }

    /// The places of its clients.
    pub fn clients(&self) -> &[u16]
        ensures { result.now ≡ self.now.clients }
    {
        &self.clients
    }
}
