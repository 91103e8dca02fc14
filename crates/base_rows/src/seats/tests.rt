//! A driver over four rings, whose other ends are worked by hand.
ghost use Rattle.std.specs.Prelude.{◌≡◌, true};
ghost use Rattle.cargo_core.specs.declared.item.QueueKind.TheVariants as Kind;
ghost use Rattle.wire_core.specs.declared.names.Ringer.TheVariants as Rung;
ghost use Rattle.wire_core.specs.Ends.{is_busy_or_off};

use crate::seats::{drive, seated_driver};
use cargo_core::Item;
use ring_rows::{byte_ring, get, give};
use spsc_queue::{Producer, Ring};
use std::test::Fail;

// Gives the next of a hundred bytes, if there is room for it: how many were given by then.
fn feed_on(feed: &mut Producer, ring: &Ring, sent: u8) -> u8
    requires own { feed.old.ring ≡ ring.now.id }
    requires calm { is_busy_or_off feed.old.knows.waiter ≡ true }
    requires free { feed.old.knows.ringer ≡ Rung.Free }
    requires kind { feed.old.knows.kind ≡ Kind.Byte }
    ensures own { feed.new.ring ≡ feed.old.ring }
    ensures calm { is_busy_or_off feed.new.knows.waiter ≡ true }
    ensures free { feed.new.knows.ringer ≡ Rung.Free }
    ensures kind { feed.new.knows.kind ≡ feed.old.knows.kind }
{
    if sent < 100 && give(feed, ring, sent) {
        return sent + 1;
    }
    sent
}

#[test]
fn a_driver_moves_a_hundred_bytes_over_rings(rt: HostRuntime) -> Result<(), Fail> {
    let alloc = rt.alloc();
    let (ring0, mut feed, device_rx) = byte_ring(alloc, 2)?;
    let (ring1, rx, mut drain) = byte_ring(alloc, 2)?;
    let (ring2, _client, tx) = byte_ring(alloc, 2)?;
    let (ring3, device_tx, _line) = byte_ring(alloc, 2)?;
    let rings = vec![in alloc; ring0, ring1, ring2, ring3]?;
    let Some((mut driver, mut seats)) = seated_driver(alloc, &rings, device_rx, rx, tx, device_tx)
    else {
        panic!(rt; "no memory")
    };
    let (mut sent, mut taken) = (0u8, 0u8);
    for _step in 0..100_000 {
        sent = feed_on(&mut feed, &rings[0], sent);
        drive(&mut driver, &mut seats);
        if let Some(item) = get(&mut drain, &rings[1]) {
            assert!(rt; item == Item::Byte(taken));
            assert!(rt; taken < 100);
            taken += 1;
        }
    }
    assert!(rt; taken == 100);
    Ok(())
}
