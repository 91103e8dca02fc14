//! What the virtualiser has of one client: a request that is under way, and an answer that is held.
ghost use Rattle.std.specs.Prelude.{◌≡◌, ◌&&◌, length, is_some};
ghost use Rattle.i2c_virt.specs.declared.i2c_kit.page.TheConstants.{BUFFER_BYTES};
ghost use Rattle.i2c_virt.specs.Desks.{new_desk, is_open, is_away_in, is_number, asked_by};
ghost use Rattle.i2c_virt.specs.Desks.{back_with};

use crate::i2c_kit::{item_at, own_place, shared_place, write_answer};
use cargo_core::{Body, Item, Page};
use i2c_text::BusStatus;

/// A client at the virtualiser. `current` is the number of the buffer whose request is to go to the
/// driver or is there; `leaving` is that request until it goes; `held` is an answer until it goes
/// to the client.
#[derive(Drop)]
pub struct Desk {
    pub current: Option<u32>,
    pub leaving: Option<(Item, Body)>,
    pub held: Option<(Item, Body)>,
}

// Whether a number, where there is one, is this.
fn is_number(current: Option<u32>, number: u32) -> bool
    ensures { result ≡ is_number current number }
{
    match current {
        Some(current) => current == number,
        None => false,
    }
}

impl Desk {
    /// A client of which nothing came.
    pub fn new() -> Desk
        ensures { result ≡ new_desk }
    {
        Desk {
            current: None,
            leaving: None,
            held: None,
        }
    }

    /// Whether its next request may be taken.
    pub fn is_open(&self) -> bool
        ensures { result ≡ is_open self.now }
    {
        self.current.is_none() && self.held.is_none()
    }

    /// Whether a request is to go to the driver.
    pub fn is_leaving(&self) -> bool
        ensures { result ≡ is_some self.now.leaving }
    {
        self.leaving.is_some()
    }

    /// Whether an answer is to go to the client.
    pub fn is_held(&self) -> bool
        ensures { result ≡ is_some self.now.held }
    {
        self.held.is_some()
    }

    /// Whether its request in the buffer of a number is at the driver.
    pub fn is_away_in(&self, number: u32) -> bool
        ensures { result ≡ is_away_in self.now number }
    {
        self.leaving.is_none() && is_number(self.current, number)
    }

    /// A request came, with the virtualiser's own answer to it; without one it goes to the driver.
    pub fn ask(&mut self, mut page: Page, answer: Option<BusStatus>)
        requires { length page.bytes ≡ BUFFER_BYTES }
        ensures { self.new ≡ asked_by answer page self.old }
    {
        match answer {
            Some(status) => {
                write_answer(&mut page, status, &[]);
                let item = item_at(own_place(page.no()));
                self.held = Some((item, Body::Page(page)));
            }
            None => {
                let item = item_at(shared_place(page.pool(), page.no()));
                self.current = Some(page.no());
                self.leaving = Some((item, Body::Page(page)));
            }
        }
    }

    /// The answer to its request came back from the driver.
    pub fn take_back(&mut self, page: Page)
        ensures { self.new ≡ back_with page self.old }
    {
        let item = item_at(own_place(page.no()));
        self.current = None;
        self.held = Some((item, Body::Page(page)));
    }
}
