//! A driver in its start state on its four ends.
ghost use Rattle.std.specs.Prelude.{◌≡◌, Some, IfSome};
ghost use Rattle.cargo_core.specs.declared.item.QueueKind.TheVariants as Kind;
ghost use Rattle.spsc_queue.specs.Rule.{first_producer, first_consumer};
ghost use Rattle.seat_wires.specs.Places.{stands_at, seat_end};
ghost use Rattle.pipe_driver.specs.Drivers.{FitsPipes};
ghost use Rattle.pipe_driver.specs.Lengths.{two_pipes};
ghost use Rattle.base_rows.specs.Seats.Starting.{StartsOn};

use seat_wires::Seats;
use spsc_queue::{Consumer, Producer, Ring};
use std::alloc::Global;
use turn_kit::event_place;
use uart_driver::UartDriver;
use wire_core::QueueId;

// The four ends of a driver that moves ring 0 to ring 1 and ring 2 to ring 3; None is the answer
// for want of memory.
fn seats_of<'a>(
    alloc: Global,
    rings: &'a [Ring],
    device_rx: Consumer,
    rx: Producer,
    tx: Consumer,
    device_tx: Producer,
) -> Option<Seats<'a>>
    requires device_rx { StartsOn rings.now 0 (first_consumer Kind.Byte) device_rx }
    requires rx { StartsOn rings.now 1 (first_producer Kind.Byte) rx }
    requires tx { StartsOn rings.now 2 (first_consumer Kind.Byte) tx }
    requires device_tx { StartsOn rings.now 3 (first_producer Kind.Byte) device_tx }
    ensures device_rx { IfSome result (λ s. stands_at s.consumers 0 ≡ Some device_rx) }
    ensures rx { IfSome result (λ s. stands_at s.producers 1 ≡ Some rx) }
    ensures tx { IfSome result (λ s. stands_at s.consumers 2 ≡ Some tx) }
    ensures device_tx { IfSome result (λ s. stands_at s.producers 3 ≡ Some device_tx) }
{
    let mut seats = Seats::new(alloc, rings);
    seats.add_consumer(QueueId(0), device_rx).ok()?;
    seats.add_producer(QueueId(1), rx).ok()?;
    seats.add_consumer(QueueId(2), tx).ok()?;
    seats.add_producer(QueueId(3), device_tx).ok()?;
    Some(seats)
}

/// A driver that moves ring 0 to ring 1 and ring 2 to ring 3, with its ends; None is the answer for
/// want of memory.
#[tactic(auto, using(crate::proofs::SeatsLemmas::Fitting::fits_new_driver))]
pub fn seated_driver<'a>(
    alloc: Global,
    rings: &'a [Ring],
    device_rx: Consumer,
    rx: Producer,
    tx: Consumer,
    device_tx: Producer,
) -> Option<(UartDriver, Seats<'a>)>
    requires device_rx { StartsOn rings.now 0 (first_consumer Kind.Byte) device_rx }
    requires rx { StartsOn rings.now 1 (first_producer Kind.Byte) rx }
    requires tx { StartsOn rings.now 2 (first_consumer Kind.Byte) tx }
    requires device_tx { StartsOn rings.now 3 (first_producer Kind.Byte) device_tx }
    ensures { IfSome result (λ r. FitsPipes (seat_end r.1) (two_pipes r.0.driver.pipes)) }
{
    let seats = seats_of(alloc, rings, device_rx, rx, tx, device_tx)?;
    let driver = UartDriver::new(QueueId(0), QueueId(3), QueueId(1), QueueId(2));
    Some((driver, seats))
}

/// Makes one step of the driver on its ends.
pub fn drive(driver: &mut UartDriver, seats: &mut Seats)
    requires { FitsPipes (seat_end seats.old) (two_pipes driver.old.driver.pipes) }
    ensures { FitsPipes (seat_end seats.new) (two_pipes driver.new.driver.pipes) }
{
    let mut event = event_place();
    driver.step(seats, &mut event);
}
