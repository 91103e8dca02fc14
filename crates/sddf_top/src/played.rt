//! What a call hands out beside its status: the system that it played or ran, or the report of a
//! system of its own.
ghost use Rattle.std.specs.Prelude.{◌≡◌};

use i2c_text::BusReport;
use line_text::ports_text::PortReport;
use std::mem::replace;
use system_core::System;

/// The system that a call played or ran, if there was one.
#[derive(Drop)]
pub enum Played {
    Nothing,
    /// The system of a description.
    Classes(System),
    /// What is reported of a bus.
    Bus(BusReport),
    /// What is reported of a switch.
    Ports(PortReport),
}

impl Played {
    /// Gives up the system. What it holds is given back here, so that no caller has to prove that
    /// of every kind of actor.
    pub fn forget(self) {
        drop(self);
    }

    /// Puts what was played in the place of what was there before, which is given up.
    pub(crate) fn put(&mut self, played: Played)
        ensures { self.new ≡ played }
    {
        replace(self, played).forget();
    }
}
