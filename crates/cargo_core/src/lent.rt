//! Pages that are lent to several receivers, until the last of them returns them.
ghost use Rattle.std.specs.Prelude.{◌≡◌, ◌<◌, ◌≤◌, IfOk, None, Some, length, replicate, slice_get};
ghost use Rattle.std.specs.Prelude.{slice_set};
ghost use Rattle.cargo_core.specs.Pages.{Paged};
ghost use Rattle.cargo_core.specs.Loans.{Loan, receivers_at, after_return, page_back, page_at};

use crate::{Memory, Page};
use std::alloc::Global;
use std::marker::Model;
use std::mem;

/// The pages of a pool that are lent, by their numbers.
#[derive(Debug, Drop)]
pub struct Lent {
    loans: Vec<Option<(Page, u32)>>,
}

impl Model for Lent {
    ghost use Rattle.std.specs.Prelude.{List, Option};
    ghost use Rattle.cargo_core.specs.Loans.{Loan};

    ghost Value = { List (Option Loan) };

    ghost view = { λ l. l.loans.items };
}

impl Lent {
    /// Nothing lent, of a pool with so many buffers.
    pub fn new(alloc: Global, buffers: u32) -> Result<Lent, Memory>
        ensures { IfOk result (λ l. l ≡ replicate buffers None) }
    {
        let mut loans = Vec::with_capacity(alloc, buffers as usize)?;
        for _ in 0..buffers {
            loans.push(None)?;
        }
        Ok(Lent { loans })
    }

    /// Lends a page to so many receivers.
    pub fn lend(&mut self, page: Page, receivers: u32)
        requires free { slice_get self.old page.no ≡ Some None }
        requires receivers { 1 ≤ receivers }
        ensures { self.new ≡ slice_set self.old page.no (Some (page, receivers)) }
    {
        let no = page.no() as usize;
        self.loans[no] = Some((page, receivers));
    }

    /// How many receivers have yet to return the page of a number: 0 where it isn't lent.
    pub fn count(&self, no: u32) -> u32
        ensures { result ≡ receivers_at self.now no }
    {
        match self.loans.get(no as usize) {
            Some(Some((_, receivers))) => *receivers,
            _ => 0,
        }
    }

    /// The page of a number, which is lent.
    pub fn page(&self, no: u32) -> &Page
        requires { 1 ≤ receivers_at self.now no }
        ensures { result.now ≡ page_at self.now no }
    {
        match self.loans.get(no as usize) {
            Some(Some((page, _))) => page,
            _ => unreachable!(),
        }
    }

    /// A receiver returns the page of a number. The last one gives the page back.
    pub fn give_back(&mut self, no: u32) -> Option<Page>
        requires { 1 ≤ receivers_at self.old no }
        ensures { (loan : Loan) → slice_get self.old no ≡ Some (Some loan)
            → (result ≡ page_back loan) × (self.new ≡ slice_set self.old no (after_return loan)) }
    {
        let slot = &mut self.loans[no as usize];
        match mem::replace(slot, None) {
            Some((page, 1)) => Some(page),
            Some((page, receivers)) => {
                *slot = Some((page, receivers - 1));
                None
            }
            None => unreachable!(),
        }
    }
}
