//! What the virtualiser has in its hand.
ghost use Rattle.std.specs.Prelude.{◌≡◌, ◌<◌, ◌^◌, ◌&&◌, ℕ, None, true, false, is_some, is_none};
ghost use Rattle.std.specs.Prelude.{length, slice_get};
ghost use Rattle.std.specs.List.{list_any};
ghost use Rattle.std.specs.Option.{MatchOption};
ghost use Rattle.buffer_kit.specs.Clients.{is_so, entry_in};
ghost use Rattle.i2c_virt.specs.I2cKit.Entries.{is_own_request};
ghost use Rattle.i2c_virt.specs.declared.desk.Desk.{Desk};
ghost use Rattle.i2c_virt.specs.Works.{IsWork, SameWork, wants_at, gives_at, is_owing, is_due};
ghost use Rattle.i2c_virt.specs.Works.{TookFrom, TookBack, RisesOnlyAt};
ghost use Rattle.i2c_virt.specs.Desks.{is_away_in};

use crate::i2c_kit::{is_own_request, is_reply_in, read_head, shared_place};
use crate::{Desk, Owners};
use buffer_kit::{Served, leaver};
use cargo_core::{Body, Item, Page, PoolId};
use turn_kit::Needs;

/// Where an entry came from: from the driver, or from the client of this place.
#[derive(Clone, Copy, Debug, PartialEq, Eq)]
pub enum From {
    Driver,
    Client(usize),
}

/// An entry that came out of turn.
#[derive(Drop)]
pub struct Stray {
    pub from: From,
    pub entry: (Item, Body),
}

/// Who has which address, what there is of each client, and the entry that came out of turn, after
/// which nothing is taken or put.
#[derive(Drop)]
pub struct Work {
    pub owners: Owners,
    pub desks: Vec<Desk>,
    pub stray: Option<Stray>,
}

/// The clients whose next request is needed.
#[derive(Clone, Copy)]
pub struct Wanting<'a> {
    pub work: &'a Work,
}

impl<'a> Needs for Wanting<'a> {
    ghost need = { λ n k. wants_at n.work.now k };

    fn at(&self, place: usize) -> bool {
        self.work.wants(place)
    }
}

/// The clients to which an answer is to go.
#[derive(Clone, Copy)]
pub struct Giving<'a> {
    pub work: &'a Work,
}

impl<'a> Needs for Giving<'a> {
    ghost need = { λ n k. gives_at n.work.now k };

    fn at(&self, place: usize) -> bool {
        self.work.gives(place)
    }
}

// No requests are counted as bad: one out of turn stops the virtualiser.
impl Served for Desk {
    ghost leaving = { λ d. d.leaving };

    ghost bad_many = { λ d. 0 };

    fn is_leaving(&self) -> bool {
        self.leaving.is_some()
    }

    fn bad(&self) -> u64 {
        0
    }
}

impl Work {
    /// Whether the next request of the client at a place is needed.
    pub fn wants(&self, place: usize) -> bool
        ensures { result ≡ wants_at self.now place }
    {
        if self.stray.is_some() {
            return false;
        }
        match self.desks.get(place) {
            Some(desk) => desk.is_open(),
            None => false,
        }
    }

    /// Whether an answer is to go to the client at a place.
    pub fn gives(&self, place: usize) -> bool
        ensures { result ≡ gives_at self.now place }
    {
        if self.stray.is_some() {
            return false;
        }
        match self.desks.get(place) {
            Some(desk) => desk.is_held(),
            None => false,
        }
    }

    /// The first client that has a request for the driver, where nothing came out of turn.
    pub fn leaver(&self) -> Option<usize>
        ensures { MatchOption result (is_owing self.now ≡ false) (λ k. (is_owing self.now ≡ true)
            × (is_some (entry_in (λ (d : Desk). d.leaving) (slice_get self.now.desks.items k))
            ≡ true)) }
    {
        if self.stray.is_some() {
            return None;
        }
        leaver(&self.desks)
    }

    // A request of the client at a place came in turn.
    #[tactic(auto, unfolding(crate::specs::I2cKit::Entries::is_own_request))]
    fn ask(&mut self, place: usize, entry: (Item, Body))
        requires work { IsWork self.old }
        requires needed { wants_at self.old place ≡ true }
        requires in_turn { is_own_request (record { 0 = place }) entry ≡ true }
        ensures work { IsWork self.new }
        ensures same { SameWork self.old self.new }
        ensures asked { TookFrom self.old place entry self.new }
        ensures rises { RisesOnlyAt place self.old self.new }
    {
        let (_, body) = entry;
        match body {
            Body::Page(page) => match read_head(page.bytes()) {
                Some(head) => {
                    let answer = self.owners.judge(place as u32, head);
                    let desk = &mut self.desks[place];
                    desk.ask(page, answer);
                }
                None => unreachable!(),
            },
            Body::Empty | Body::Lease(_) => unreachable!(),
        }
    }

    /// An entry of the client at a place came. One that is no request in turn is kept as it is.
    pub fn request(&mut self, place: usize, entry: (Item, Body))
        requires work { IsWork self.old }
        requires needed { wants_at self.old place ≡ true }
        ensures work { IsWork self.new }
        ensures same { SameWork self.old self.new }
        ensures asked { TookFrom self.old place entry self.new }
        ensures rises { RisesOnlyAt place self.old self.new }
    {
        if is_own_request(PoolId(place as u16), &entry) {
            self.ask(place, entry);
        } else {
            self.stray = Some(Stray {
                from: From::Client(place),
                entry,
            });
        }
    }

    // Whether a page is that of a request at the driver.
    fn is_away(&self, page: &Page) -> bool
        ensures { result ≡ is_so (λ (d : Desk). is_away_in d page.now.no)
            (slice_get self.now.desks.items page.now.pool.0) }
    {
        match self.desks.get(usize::from(page.pool().0)) {
            Some(desk) => desk.is_away_in(page.no()),
            None => false,
        }
    }

    // Whether an entry is a response in turn.
    fn is_due(&self, entry: &(Item, Body)) -> bool
        ensures { result ≡ is_due self.now entry.now }
    {
        let Body::Page(page) = &entry.1 else {
            return false;
        };
        let place = shared_place(page.pool(), page.no());
        self.is_away(page) && is_reply_in(page.pool(), page.no(), place, entry)
    }

    // The response to a request came. It gives the request's client.
    fn take_back(&mut self, entry: (Item, Body)) -> usize
        requires work { IsWork self.old }
        requires free { self.old.stray ≡ None }
        requires due { is_due self.old entry ≡ true }
        ensures work { IsWork self.new }
        ensures same { SameWork self.old self.new }
        ensures answered { TookBack self.old entry self.new }
        ensures rises { RisesOnlyAt result self.old self.new }
        ensures within { result < 2 ^ 16 }
    {
        let (_, body) = entry;
        match body {
            Body::Page(page) => {
                let client = usize::from(page.pool().0);
                let desk = &mut self.desks[client];
                desk.take_back(page);
                client
            }
            Body::Empty | Body::Lease(_) => unreachable!(),
        }
    }

    /// An entry of the driver came. One that is no response in turn is kept as it is. It gives the
    /// one client, if any, of which something may be needed only now.
    pub fn respond(&mut self, entry: (Item, Body)) -> usize
        requires work { IsWork self.old }
        requires free { self.old.stray ≡ None }
        ensures work { IsWork self.new }
        ensures same { SameWork self.old self.new }
        ensures answered { TookBack self.old entry self.new }
        ensures rises { RisesOnlyAt result self.old self.new }
        ensures within { result < 2 ^ 16 }
    {
        if self.is_due(&entry) {
            return self.take_back(entry);
        }
        self.stray = Some(Stray {
            from: From::Driver,
            entry,
        });
        0
    }
}
