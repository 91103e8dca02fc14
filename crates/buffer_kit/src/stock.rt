//! Buffers that their owner has yet to give for the first time.
ghost use Rattle.std.specs.Prelude.{◌≡◌, ◌+◌, ◌*◌, ◌-◌, ◌<◌, ◌≤◌, ◌^◌, ℕ, None, All, map, is_some};
ghost use Rattle.std.specs.Prelude.{is_none, length};
ghost use Rattle.cargo_core.specs.declared.item.PoolId.{PoolId};
ghost use Rattle.cargo_core.specs.Bodies.{buffers_of};
ghost use Rattle.turn_kit.specs.Hands.{bodies_of};
ghost use Rattle.buffer_kit.specs.Pools.{ArePool, given_entry};
ghost use Rattle.buffer_kit.specs.Stocks.{stock_list, stock_hand, IsStock, IsStart, SameStock};

use crate::pages_of;
use cargo_core::{Body, Item, NetDesc, Page, PoolId};
use turn_kit::count_held;

/// Buffers that are to be given in rising number. `next` is the one that is given next, `rest` the
/// others, the last of them first. They are the buffers of a pool, as many as `buffers` and each of
/// `size` bytes; that of number 0 begins at `base`.
#[derive(Drop)]
pub struct Stock {
    pub next: Option<(Item, Body)>,
    pub rest: Vec<Page>,
    pub pool: PoolId,
    pub buffers: u32,
    pub base: u64,
    pub size: u64,
}

// The pool of some buffers, their size and their number. Where there is none, any pool and size
// will do.
fn described(pages: &Vec<Page>) -> (PoolId, u64, u32)
    requires { length pages.now.items < 2 ^ 32 }
    ensures kind { (base : ℕ) (pool : PoolId) (size : ℕ)
        → ArePool base pool size pages.now.items → ArePool base result.0 result.1 pages.now.items }
    ensures many { result.2 ≡ length pages.now.items }
{
    let buffers = pages.len() as u32;
    match pages.get(0) {
        Some(page) => (page.pool(), page.bytes().len() as u64, buffers),
        None => (PoolId(0), 1, buffers),
    }
}

impl Stock {
    /// All buffers of a pool, whose first one begins at `base`. It takes no memory.
    pub fn new(mut pages: Vec<Page>, base: u64) -> Stock
        requires { (pool : PoolId) × (size : ℕ) × ArePool base pool size pages.items }
        ensures list { stock_list result ≡ map (given_entry base result.size) pages.items }
        ensures stock { IsStock result }
        ensures start { IsStart result pages.items }
        ensures base { result.base ≡ base }
    {
        let (pool, size, buffers) = described(&pages);
        pages.reverse();
        let mut stock = Stock {
            next: None,
            rest: pages,
            pool,
            buffers,
            base,
            size,
        };
        stock.refill();
        stock
    }

    /// How many buffers of a pool it has.
    pub fn held(&self, pool: PoolId) -> u32
        requires { length self.now.rest.items < 2 ^ 32 - 1 }
        ensures held { result ≡ buffers_of pool (stock_hand self.now) }
        ensures few { result ≤ 1 + length self.now.rest.items }
    {
        count_held(pool, &self.next) + pages_of(pool, &self.rest)
    }

    /// The next buffer is made ready, where there is one.
    pub fn refill(&mut self)
        requires next { self.old.next ≡ None }
        requires addresses { All
            (λ p. self.old.base + p.no * self.old.size < 2 ^ 64) self.old.rest.items }
        ensures list { stock_list self.new ≡ stock_list self.old }
        ensures stock { IsStock self.new }
        ensures same { SameStock self.old self.new }
    {
        if let Some(page) = self.rest.pop() {
            let desc = NetDesc {
                addr: self.base + page.no() as u64 * self.size,
                len: 0,
            };
            self.next = Some((Item::Net(desc), Body::Page(page)));
        }
    }
}
