//! How many of some buffers are of a pool.
ghost use Rattle.std.specs.Prelude.{◌≡◌, ◌<◌, ◌≤◌, ◌^◌, length};
ghost use Rattle.cargo_core.specs.Bodies.{buffers_of};
ghost use Rattle.buffer_kit.specs.Pools.{page_bodies};

use cargo_core::{Page, PoolId};

/// How many of these buffers are of a pool.
pub fn pages_of(pool: PoolId, pages: &[Page]) -> u32
    requires { length pages.now < 2 ^ 32 }
    ensures pages { result ≡ buffers_of pool (page_bodies pages.now) }
    ensures few { result ≤ length pages.now }
{
    let mut count = 0;
    for page in pages {
        if page.pool().0 == pool.0 {
            count += 1;
        }
    }
    count
}
