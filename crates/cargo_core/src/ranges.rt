//! The ranges of device addresses that the clients have, by which an address tells its client.
ghost use Rattle.std.specs.Prelude.{◌≡◌, ◌+◌, ◌<◌, ◌≤◌, ◌^◌, ◌++◌, ◌∷◌, [], All, length, slice_get};
ghost use Rattle.std.specs.Prelude.{OnOk, OnErr, MatchOption, Some};
ghost use Rattle.cargo_core.specs.Ranges.{IsApart, IsOwner, IsNobodys, is_within};

use crate::Memory;
use std::alloc::Global;
use std::marker::Model;

/// The addresses from `base` on, `size` of them.
#[derive(Clone, Copy, Debug, PartialEq, Eq)]
pub struct Range {
    pub base: u64,
    pub size: u64,
}

impl Range {
    /// Whether an address is in the range.
    pub fn holds(&self, address: u64) -> bool
        ensures { result ≡ is_within self.now address }
    {
        self.base <= address && address - self.base < self.size
    }
}

/// A range of addresses for each client, in the order of the clients. No two of them meet, so that
/// an address tells its client. A look-up takes a time that grows with the number of clients alone.
#[derive(Debug, Drop)]
pub struct Ranges {
    ranges: Vec<Range>,
}

impl Model for Ranges {
    ghost use Rattle.std.specs.Prelude.{List};
    ghost use Rattle.cargo_core.specs.Ranges.{AreRanges};
    ghost use Rattle.cargo_core.specs.declared.ranges.Range.{Range};

    ghost Value = { List Range };

    ghost view = { λ r. r.ranges.items };

    ghost invariant = { λ r. AreRanges r.ranges.items };
}

impl Ranges {
    /// No range. It takes no memory.
    pub fn new(alloc: Global) -> Ranges
        ensures { result ≡ [] }
    {
        Ranges {
            ranges: Vec::new(alloc),
        }
    }

    /// Adds the next client's range. After want of memory nothing changed.
    pub fn add(&mut self, base: u64, size: u64) -> Result<(), Memory>
        requires apart { All (IsApart (record { base = base; size = size })) self.old }
        requires end { base + size ≤ 2 ^ 62 }
        requires few { length self.old < 2 ^ 32 }
        ensures ok { OnOk result (self.new ≡ self.old ++ record { base = base; size = size } ∷ []) }
        ensures err { OnErr result (self.new ≡ self.old) }
    {
        self.ranges.push(Range { base, size })?;
        Ok(())
    }

    /// The client whose range holds an address. None exactly where no range does.
    pub fn client_of(&self, address: u64) -> Option<u32>
        ensures { MatchOption result (IsNobodys self.now address)
            (λ client. IsOwner self.now address client) }
    {
        for (client, range) in self.ranges.iter().enumerate() {
            if range.holds(address) {
                return Some(client as u32);
            }
        }
        None
    }

    /// How far an address of a client's range is from where the range begins.
    pub fn offset_of(&self, client: u32, address: u64) -> u64
        requires { IsOwner self.now address client }
        ensures { (range : Range) → slice_get self.now client ≡ Some range
            → range.base + result ≡ address }
    {
        address - self.ranges[client as usize].base
    }
}
