//! Buffers, which can't be copied, and leases of them.
ghost use Rattle.std.specs.Prelude.{◌≡◌, ◌≤◌, ◌+◌, IfOk, length, replicate, take};
ghost use Rattle.cargo_core.specs.Lists.{replaced};
ghost use Rattle.cargo_core.specs.Pages.{Paged, Leased};

use crate::{Bytes, Memory, PoolId};
use std::alloc::Global;
use std::marker::Model;

/// A buffer of a pool. It can't be cloned, so that a buffer is one value wherever it goes.
#[derive(Debug, Drop)]
pub struct Page {
    alloc: Global,
    pool: PoolId,
    no: u32,
    bytes: Bytes,
}

impl Model for Page {
    ghost use Rattle.cargo_core.specs.Pages.{Paged};

    ghost Value = { Paged };

    ghost view = { λ p. record { pool = p.pool; no = p.no; bytes = p.bytes } };
}

impl Page {
    /// A buffer of zeros, with this pool and this number in it.
    pub fn new(alloc: Global, pool: PoolId, no: u32, size: u32) -> Result<Page, Memory>
        ensures { IfOk result (λ p. p ≡ record { pool = pool; no = no; bytes = replicate size 0 }) }
    {
        let bytes = vec![in alloc; 0u8; size as usize]?;
        Ok(Page {
            alloc,
            pool,
            no,
            bytes: Bytes::from_vec(bytes),
        })
    }

    /// The pool that the buffer is of.
    pub fn pool(&self) -> PoolId
        ensures { result ≡ self.now.pool }
    {
        self.pool
    }

    /// The buffer's number in its pool.
    pub fn no(&self) -> u32
        ensures { result ≡ self.now.no }
    {
        self.no
    }

    /// What stands in the buffer.
    pub fn bytes(&self) -> &[u8]
        ensures { result.now ≡ self.now.bytes }
    {
        self.bytes.as_slice()
    }

    /// Replaces the bytes from `at` on. It takes no memory.
    pub fn fill(&mut self, at: usize, from: &[u8])
        requires { at + length from.now ≤ length self.old.bytes }
        ensures { self.new ≡ record self.old { bytes = replaced self.old.bytes at from.now } }
    {
        self.bytes.replace(at, from);
    }

    /// A lease of the first `len` bytes.
    pub fn lease(&self, len: usize) -> Result<Lease, Memory>
        requires { len ≤ length self.now.bytes }
        ensures { IfOk result
            (λ l. l ≡ record { no = self.now.no; bytes = take len self.now.bytes }) }
    {
        Lease::new(self.alloc, self.no, &self.bytes.as_slice()[..len])
    }
}

/// Leave to read a buffer: its number, and the bytes that may be read.
#[derive(Debug, Drop)]
pub struct Lease {
    alloc: Global,
    no: u32,
    bytes: Bytes,
}

impl Model for Lease {
    ghost use Rattle.cargo_core.specs.Pages.{Leased};

    ghost Value = { Leased };

    ghost view = { λ l. record { no = l.no; bytes = l.bytes } };
}

impl Lease {
    fn new(alloc: Global, no: u32, from: &[u8]) -> Result<Lease, Memory>
        ensures { IfOk result (λ l. l ≡ record { no = no; bytes = from.now }) }
    {
        let bytes = Bytes::from_slice(alloc, from)?;
        Ok(Lease { alloc, no, bytes })
    }

    /// An equal lease.
    pub fn again(&self) -> Result<Lease, Memory>
        ensures { IfOk result (λ l. l ≡ self.now) }
    {
        Lease::new(self.alloc, self.no, self.bytes.as_slice())
    }

    /// The number of the buffer in its pool.
    pub fn no(&self) -> u32
        ensures { result ≡ self.now.no }
    {
        self.no
    }

    /// What may be read.
    pub fn bytes(&self) -> &[u8]
        ensures { result.now ≡ self.now.bytes }
    {
        self.bytes.as_slice()
    }
}
