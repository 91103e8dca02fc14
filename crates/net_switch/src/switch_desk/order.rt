//! The order in which a switch last took from its ports.
ghost use Rattle.std.specs.Prelude.{◌≡◌, ◌==◌, ◌<◌, ℕ, IfOk, position};
ghost use Rattle.net_switch.specs.SwitchDesk.Orders.{AreOnce, turned_last};

use cargo_core::Memory;
use std::alloc::Global;
use std::marker::Model;

/// All places below a number once each, in the order in which they were last turned to.
#[derive(Debug, Drop)]
pub struct Order {
    places: Vec<usize>,
}

impl Model for Order {
    ghost use Rattle.std.specs.Prelude.{ℕ, List};

    ghost Value = { List ℕ };

    ghost view = { λ o. o.places.items };
}

// Where a place stands.
fn find(places: &[usize], place: usize) -> Option<usize>
    ensures { result ≡ position (λ other. other == place) places.now }
{
    places.iter().position(|other| *other == place)
}

impl Order {
    /// So many places, in rising order.
    pub fn new(alloc: Global, count: usize) -> Result<Order, Memory>
        ensures { IfOk result (AreOnce count) }
    {
        let mut places = Vec::with_capacity(alloc, count)?;
        for place in 0..count {
            places.push(place)?;
        }
        Ok(Order { places })
    }

    /// The places.
    pub fn as_slice(&self) -> &[usize]
        ensures { result.now ≡ self.now }
    {
        &self.places
    }

    /// A place comes last now.
    pub fn turn(&mut self, place: usize)
        requires { (count : ℕ) × AreOnce count self.old × (place < count) }
        ensures { self.new ≡ turned_last place self.old }
    {
        if let Some(at) = find(&self.places, place) {
            let turned = self.places.remove(at);
            self.places.push_reserved(turned);
        }
    }
}
