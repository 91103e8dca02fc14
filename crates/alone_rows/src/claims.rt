//! Three clients that claim two devices, in every order.
ghost use Rattle.std.specs.Prelude.{◌≡◌, ◌<◌, length, IfOk};

use crate::telling::tell;
use cargo_core::Memory;
use i2c_text::BusStatus;
use i2c_virt::Owners;
use i2c_virt::i2c_kit::{Head, Operation};
use std::alloc::Global;
use std::io;

// The orders of three clients.
const ORDERS: [[u32; 3]; 6] = [
    [0, 1, 2],
    [0, 2, 1],
    [1, 0, 2],
    [1, 2, 0],
    [2, 0, 1],
    [2, 1, 0],
];

// A table in which nobody has an address.
fn owners(alloc: Global) -> Result<Owners, Memory>
    ensures { IfOk result (λ o. length o.clients.items ≡ 128) }
{
    Ok(Owners::new(alloc)?)
}

// How a client's claim of an address is judged, or its read.
fn judged(owners: &mut Owners, client: u32, operation: Operation, address: u8) -> Option<BusStatus>
    requires within { address < 128 }
    requires size { length owners.old.clients.items ≡ 128 }
    ensures { length owners.new.clients.items ≡ 128 }
{
    let head = Head {
        operation,
        address,
        count: 1,
    };
    owners.judge(client, head)
}

// Whether a client's claim of an address is answered so.
fn is_claimed(owners: &mut Owners, client: u32, address: u8, status: BusStatus) -> bool
    requires within { address < 128 }
    requires size { length owners.old.clients.items ≡ 128 }
    ensures { length owners.new.clients.items ≡ 128 }
{
    judged(owners, client, Operation::Claim, address) == Some(status)
}

// Whether of three clients that claim the address 80 in this order, and 81 in that order, the first
// has it alone, and reads there.
fn has_one_owner(alloc: Global, first: [u32; 3], second: [u32; 3]) -> Result<bool, Memory> {
    let mut owners = owners(alloc)?;
    let mut right = is_claimed(&mut owners, first[0], 80, BusStatus::Ok);
    right = is_claimed(&mut owners, second[0], 81, BusStatus::Ok) & right;
    right = is_claimed(&mut owners, first[1], 80, BusStatus::Taken) & right;
    right = is_claimed(&mut owners, second[1], 81, BusStatus::Taken) & right;
    right = is_claimed(&mut owners, first[2], 80, BusStatus::Taken) & right;
    right = is_claimed(&mut owners, second[2], 81, BusStatus::Taken) & right;
    right = is_claimed(&mut owners, first[0], 80, BusStatus::Ok) & right;
    right = judged(&mut owners, first[0], Operation::Read, 80).is_none() & right;
    let other = judged(&mut owners, first[1], Operation::Read, 80);
    Ok(right & (other == Some(BusStatus::Unclaimed)))
}

fn the_first_claim_of_each_device_is_good_in_every_order(alloc: Global) -> Result<bool, Memory> {
    for first in ORDERS {
        for second in ORDERS {
            if !has_one_owner(alloc, first, second)? {
                return Ok(false);
            }
        }
    }
    Ok(true)
}

/// Prints the rows of claims.
pub fn print_claims(rt: &HostRuntime) -> io::Result<()> {
    let right = the_first_claim_of_each_device_is_good_in_every_order(rt.alloc());
    tell(
        rt,
        "the first claim of each device is good in every order",
        right,
    )
}
