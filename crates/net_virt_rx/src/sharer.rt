//! What a receiving virtualiser has in its hand, and what it has lent.
ghost use Rattle.std.specs.Prelude.{◌≡◌, ◌+◌, ◌*◌, ◌<◌, ◌≤◌, ◌^◌, ◌++◌, ◌∷◌, [], ℕ, None, Some};
ghost use Rattle.std.specs.Prelude.{true, false, List, IfOk, OnOk, OnErr, IsSome, is_some, length};
ghost use Rattle.std.specs.Prelude.{map, replicate, slice_get, slice_index_or, slice_set};
ghost use Rattle.std.specs.Option.{ForSome, option_map};
ghost use Rattle.cargo_core.specs.declared.item.PoolId.{PoolId};
ghost use Rattle.cargo_core.specs.Bodies.{buffers_of, buffers_in};
ghost use Rattle.cargo_core.specs.Pages.{Paged};
ghost use Rattle.frame_core.specs.declared.mac.Mac.{Mac};
ghost use Rattle.wire_core.specs.Deeds.{Cargo};
ghost use Rattle.buffer_kit.specs.Entries.{addr_of};
ghost use Rattle.buffer_kit.specs.Pools.{ArePool, given_entry};
ghost use Rattle.net_virt_rx.specs.Sharing.{IsSharer, IsNewSharer, SameSharer, SharerStands};
ghost use Rattle.net_virt_rx.specs.Sharing.{how_many, is_owing, is_idle, is_back, is_returned};
ghost use Rattle.net_virt_rx.specs.Sharing.{due_back, returned, is_out, owed_lease, sharer_hand};
ghost use Rattle.net_virt_rx.specs.Sharing.{sharer_bodies, with_more, lent_many};

use crate::Receivers;
use buffer_kit::{Stock, address, frame, told_length};
use cargo_core::{Body, Item, Lent, Memory, NetDesc, Page, PoolId};
use frame_core::Mac;
use std::alloc::Global;
use turn_kit::count_held;

/// What a receiving virtualiser has. `stock` are the buffers that it is to give, `macs` the
/// clients' addresses. `owed` are the clients to which a lease of the buffer number `shared` is
/// owed, whose frame has `len` bytes where its page has as many; `ready` is such a lease. `lent`
/// has the pages that are lent, and `out` of each buffer the clients to which a lease of it is owed
/// or out. After an entry came out of turn, which is `stray`, it takes and puts no more.
#[derive(Drop)]
pub struct Sharer {
    pub stock: Stock,
    pub macs: Vec<Mac>,
    pub owed: Receivers,
    pub shared: u32,
    pub len: u16,
    pub ready: Option<(Item, Body)>,
    pub lent: Lent,
    pub out: Vec<Receivers>,
    pub stray: Option<(Item, Body)>,
}

// No client for each of so many buffers.
fn nobody(alloc: Global, buffers: u32, clients: usize) -> Result<Vec<Receivers>, Memory>
    ensures { IfOk result (λ v. v.items ≡ replicate buffers (replicate clients false)) }
{
    let mut out = Vec::with_capacity(alloc, buffers as usize)?;
    for _ in 0..buffers {
        out.push(Receivers::new(alloc, clients)?)?;
    }
    Ok(out)
}

impl Sharer {
    /// All buffers of a pool, whose first one begins at `base`, in its hand, and nothing lent.
    pub fn new(alloc: Global, macs: Vec<Mac>, pages: Vec<Page>, base: u64) -> Result<Sharer, Memory>
        requires pool { (pool : PoolId) × (size : ℕ) × ArePool base pool size pages.items }
        requires few { length macs.items < 2 ^ 32 }
        ensures new { IfOk result (λ w. IsNewSharer base macs.items pages.items w) }
        ensures work { IfOk result (λ w. IsSharer w) }
    {
        let clients = macs.len();
        let stock = Stock::new(pages, base);
        let lent = Lent::new(alloc, stock.buffers)?;
        let out = nobody(alloc, stock.buffers, clients)?;
        let owed = Receivers::new(alloc, clients)?;
        Ok(Sharer {
            stock,
            macs,
            owed,
            shared: 0,
            len: 0,
            ready: None,
            lent,
            out,
            stray: None,
        })
    }

    /// Whether some client is owed a lease.
    pub fn is_owing(&self) -> bool
        ensures { result ≡ is_owing self.now }
    {
        self.owed.any()
    }

    /// Whether it has no lease and no buffer in its hand.
    pub fn is_idle(&self) -> bool
        ensures { result ≡ is_idle self.now }
    {
        self.stock.next.is_none() && self.stray.is_none() && !self.is_owing()
    }

    /// How many buffers of a pool are in its hand and aren't lent.
    pub fn held(&self, pool: PoolId) -> u32
        requires { IsSharer self.now }
        ensures { result ≡ buffers_of pool (sharer_hand self.now) }
    {
        if self.stray.is_some() {
            count_held(pool, &self.stray)
        } else {
            self.stock.held(pool)
        }
    }

    /// How many buffers are lent.
    pub fn lent(&self) -> u32
        ensures { result ≡ lent_many self.now.stock.buffers self.now.lent }
    {
        let mut many = 0;
        for no in 0..self.stock.buffers {
            if self.lent.count(no) > 0 {
                many += 1;
            }
        }
        many
    }

    // The offset at which a buffer begins.
    fn offset(&self, no: u32) -> u64
        requires room { self.now.stock.base + self.now.stock.buffers * self.now.stock.size
            ≤ 2 ^ 62 }
        requires within { no < self.now.stock.buffers }
        ensures offset { result ≡ no * self.now.stock.size }
        ensures room { self.now.stock.base + result ≤ 2 ^ 62 }
    {
        no as u64 * self.stock.size
    }

    // A lease that is owed.
    fn lease(&self) -> Result<(Item, Body), Memory>
        requires work { IsSharer self.now }
        requires owing { is_owing self.now ≡ true }
        ensures { IfOk result (λ x. x ≡ owed_lease self.now) }
    {
        let page = self.lent.page(self.shared);
        let len = page.bytes().len().min(self.len as usize);
        let lease = page.lease(len)?;
        let desc = NetDesc {
            addr: self.offset(self.shared),
            len: len as u16,
        };
        Ok((Item::Net(desc), Body::Lease(lease)))
    }

    /// Makes a lease ready, where one is owed and none is. After want of memory nothing changed.
    pub fn prepare(&mut self) -> Result<(), Memory>
        requires { IsSharer self.old }
        ensures work { OnOk result (IsSharer self.new) }
        ensures ready { OnOk result (is_owing self.old ≡ true → is_some self.new.ready ≡ true) }
        ensures others { OnOk result (self.new ≡ record self.old { ready = self.new.ready }) }
        ensures err { OnErr result (self.new ≡ self.old) }
    {
        if self.ready.is_none() && self.is_owing() {
            self.ready = Some(self.lease()?);
        }
        Ok(())
    }

    // Whether a frame came in a buffer that is away.
    fn is_back(&self, entry: &(Item, Body)) -> bool
        requires { IsSharer self.now }
        ensures { result ≡ is_back self.now entry.now }
    {
        match &entry.1 {
            Body::Page(page) => {
                page.pool().0 == self.stock.pool.0
                    && page.no() < self.stock.buffers
                    && address(&entry.0) == self.stock.base + self.offset(page.no())
                    && self.lent.count(page.no()) == 0
                    && page.bytes().len() as u64 == self.stock.size
            }
            _ => false,
        }
    }

    // The buffer that an item names, where a lease of it is out to the client at a place.
    fn due_back(&self, client: usize, item: &Item) -> Option<u32>
        requires { IsSharer self.now }
        ensures { result ≡ due_back self.now client item.now }
    {
        let no = address(item) / self.stock.size;
        let names = no < self.stock.buffers as u64 && address(item) == self.offset(no as u32);
        if names && self.out[no as usize].has(client) {
            Some(no as u32)
        } else {
            None
        }
    }

    // The buffer of which a lease came back that is out to the client at a place. A page is none.
    fn returned(&self, client: usize, entry: &(Item, Body)) -> Option<u32>
        requires { IsSharer self.now }
        ensures { result ≡ returned self.now client entry.now }
    {
        match &entry.1 {
            Body::Page(_) => None,
            _ => self.due_back(client, &entry.0),
        }
    }

    // A buffer is in its hand again, and is to be given.
    fn restock(&mut self, page: Page)
        requires room { self.old.stock.base + self.old.stock.buffers * self.old.stock.size
            ≤ 2 ^ 62 }
        requires within { page.no < self.old.stock.buffers }
        ensures { self.new ≡ record self.old {
          stock = record self.old.stock {
            next = Some
                (given_entry self.old.stock.base self.old.stock.size page);
          };
        } }
    {
        let desc = NetDesc {
            addr: self.stock.base + self.offset(page.no()),
            len: 0,
        };
        self.stock.next = Some((Item::Net(desc), Body::Page(page)));
    }

    // The same where a buffer came back, and nothing where none did.
    fn restock_if(&mut self, page: Option<Page>)
        requires room { self.old.stock.base + self.old.stock.buffers * self.old.stock.size
            ≤ 2 ^ 62 }
        requires within { ForSome page (λ p. p.no < self.old.stock.buffers) }
        requires next { self.old.stock.next ≡ None }
        ensures { self.new ≡ record self.old {
          stock = record self.old.stock {
            next = option_map
                (given_entry self.old.stock.base self.old.stock.size) page;
          };
        } }
    {
        if let Some(page) = page {
            self.restock(page);
        }
    }

    // A buffer is lent to the clients that are owed a lease of it.
    fn lend(&mut self, page: Page, receivers: u32)
        requires free { slice_get self.old.lent page.no ≡ Some None }
        requires within { page.no < length self.old.out.items }
        requires long { length self.old.owed
            ≡ length (slice_index_or self.old.out.items page.no []) }
        requires some { 1 ≤ receivers }
        ensures others { self.new ≡ record self.old {
          shared = page.no;
          lent = self.new.lent;
          out = self.new.out;
        } }
        ensures lent { self.new.lent ≡ slice_set self.old.lent page.no (Some (page, receivers)) }
        ensures out { self.new.out.items ≡ slice_set self.old.out.items page.no self.old.owed }
    {
        let no = page.no();
        self.shared = no;
        let out = &mut self.out[no as usize];
        out.copy_from(self.owed.as_slice());
        self.lent.lend(page, receivers);
    }

    // A frame came in turn: its buffer is lent to the clients that it is for. Where it is for none,
    // the buffer is to be given.
    fn take_in(&mut self, entry: (Item, Body))
        requires work { IsSharer self.old }
        requires idle { is_idle self.old ≡ true }
        requires back { is_back self.old entry ≡ true }
        ensures work { IsSharer self.new }
        ensures same { SameSharer self.old self.new }
        ensures stray { self.new.stray ≡ self.old.stray }
        ensures stands { (start : List Paged) (frames given : List Cargo)
            (shared back : ℕ → List Cargo) → SharerStands self.old start frames given shared back
            → SharerStands self.new start (frames ++ entry ∷ []) given shared back }
        ensures held { (pool : PoolId) → buffers_of pool (sharer_bodies self.new)
            ≡ buffers_of pool (sharer_bodies self.old) + buffers_in pool entry.1 }
    {
        self.owed.address(&self.macs, frame(&entry));
        let receivers = self.owed.count();
        let (item, body) = entry;
        match body {
            Body::Page(page) => {
                if receivers == 0 {
                    self.restock(page);
                } else {
                    self.len = told_length(&item);
                    self.lend(page, receivers);
                }
            }
            _other => unreachable!(),
        }
    }

    /// A frame came. Its buffer is lent to the clients that the frame is for; where there is none,
    /// it is to be given again. An entry out of turn strays.
    pub fn receive(&mut self, entry: (Item, Body))
        requires work { IsSharer self.old }
        requires idle { is_idle self.old ≡ true }
        ensures work { IsSharer self.new }
        ensures same { SameSharer self.old self.new }
        ensures turn { is_back self.old entry ≡ true → self.new.stray ≡ self.old.stray }
        ensures stands { is_back self.old entry ≡ true → (start : List Paged)
            (frames given : List Cargo) (shared back : ℕ → List Cargo)
            → SharerStands self.old start frames given shared back
            → SharerStands self.new start (frames ++ entry ∷ []) given shared back }
        ensures stray { is_back self.old entry ≡ false → self.new
            ≡ record self.old { stray = Some entry } }
        ensures held { (pool : PoolId) → buffers_of pool (sharer_bodies self.new)
            ≡ buffers_of pool (sharer_bodies self.old) + buffers_in pool entry.1 }
    {
        if self.is_back(&entry) {
            self.take_in(entry);
        } else {
            self.stray = Some(entry);
        }
    }

    // A lease of a buffer came back from a client. The last one brings the buffer back, which is to
    // be given.
    fn give_back(&mut self, client: usize, no: u32)
        requires work { IsSharer self.old }
        requires idle { is_idle self.old ≡ true }
        requires within { no < self.old.stock.buffers }
        requires out { is_out self.old no client ≡ true }
        ensures work { IsSharer self.new }
        ensures same { SameSharer self.old self.new }
        ensures stray { self.new.stray ≡ self.old.stray }
        ensures stands { (start : List Paged) (frames given : List Cargo)
            (shared back : ℕ → List Cargo) (x : Cargo) → addr_of x.0 ≡ no * self.old.stock.size
            → SharerStands self.old start frames given shared back
            → SharerStands self.new start frames given shared (with_more back client (x ∷ [])) }
        ensures held { (pool : PoolId) → buffers_of pool (sharer_bodies self.new)
            ≡ buffers_of pool (sharer_bodies self.old) }
    {
        let out = &mut self.out[no as usize];
        out.remove(client);
        let page = self.lent.give_back(no);
        self.restock_if(page);
    }

    /// A lease came back from the client at a place. An entry out of turn strays.
    pub fn take_back(&mut self, client: usize, entry: (Item, Body))
        requires work { IsSharer self.old }
        requires idle { is_idle self.old ≡ true }
        ensures work { IsSharer self.new }
        ensures same { SameSharer self.old self.new }
        ensures turn { is_returned self.old client entry ≡ true → self.new.stray ≡ self.old.stray }
        ensures stands { is_returned self.old client entry ≡ true → (start : List Paged)
            (frames given : List Cargo) (shared back : ℕ → List Cargo)
            → SharerStands self.old start frames given shared back
            → SharerStands self.new start frames given shared
            (with_more back client (entry ∷ [])) }
        ensures stray { is_returned self.old client entry ≡ false → self.new
            ≡ record self.old { stray = Some entry } }
        ensures held { (pool : PoolId) → buffers_of pool (sharer_bodies self.new)
            ≡ buffers_of pool (sharer_bodies self.old) + buffers_in pool entry.1 }
    {
        match self.returned(client, &entry) {
            Some(no) => self.give_back(client, no),
            None => self.stray = Some(entry),
        }
    }
}
