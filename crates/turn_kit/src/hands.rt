//! What an actor has in its hand: a list of bodies, since a client's bare pages have no item.

ghost use Rattle.std.specs.Prelude.{◌≡◌, ◌≤◌, option_to_list};
ghost use Rattle.cargo_core.specs.Bodies.{buffers_of};
ghost use Rattle.turn_kit.specs.Hands.{bodies_of};

use cargo_core::{Body, Item, PoolId};

/// How many buffers of a pool an actor holds that has at most this entry in its hand: one, where
/// the entry carries a buffer of that pool.
pub fn count_held(pool: PoolId, load: &Option<(Item, Body)>) -> u32
    ensures held { result ≡ buffers_of pool (bodies_of (option_to_list load.now)) }
    ensures one { result ≤ 1 }
{
    match load {
        Some((_, Body::Page(page))) if page.pool().0 == pool.0 => 1,
        _ => 0,
    }
}
