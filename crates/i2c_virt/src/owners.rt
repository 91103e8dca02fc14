//! Who has which address, and how the virtualiser judges a request by it.
ghost use Rattle.std.specs.Prelude.{◌≡◌, ◌<◌, ◌++◌, ◌∷◌, ℕ, [], List, length, IfOk};
ghost use Rattle.i2c_virt.specs.declared.i2c_kit.alone.Request.{Request};
ghost use Rattle.i2c_virt.specs.I2cKit.Grants.{is_free_for, is_owner};
ghost use Rattle.i2c_virt.specs.I2cKit.Pages.{asked};
ghost use Rattle.i2c_virt.specs.Owners.{KnowsOwners, verdict, judged, owner_then};

use crate::i2c_kit::{Head, Operation};
use cargo_core::Memory;
use i2c_text::BusStatus;
use std::alloc::Global;

/// How many addresses of seven bits there are.
pub const ADDRESSES: usize = 128;

/// Who has which address: by address the client of the first claim of it that was taken. A grant
/// lasts to the end of the play, which is this project's own.
#[derive(Drop)]
pub struct Owners {
    pub clients: Vec<Option<u32>>,
}

// Whether no client but this has an address.
fn is_free_for(owner: Option<u32>, client: u32) -> bool
    ensures { result ≡ is_free_for owner client }
{
    match owner {
        Some(owner) => owner == client,
        None => true,
    }
}

// Whether this client has an address.
fn is_owner(owner: Option<u32>, client: u32) -> bool
    ensures { result ≡ is_owner owner client }
{
    match owner {
        Some(owner) => owner == client,
        None => false,
    }
}

// How a request is answered by the virtualiser itself, by the client that has its address; None
// where it goes to the driver.
fn judged(owner: Option<u32>, client: u32, operation: Operation) -> Option<BusStatus>
    ensures { result ≡ judged owner client operation }
{
    match operation {
        Operation::Claim => {
            let free = is_free_for(owner, client);
            Some(if free {
                BusStatus::Ok
            } else {
                BusStatus::Taken
            })
        }
        Operation::Read | Operation::Write => {
            if is_owner(owner, client) {
                return None;
            }
            Some(BusStatus::Unclaimed)
        }
    }
}

// The client that has the address after a request.
fn owner_then(owner: Option<u32>, client: u32, operation: Operation) -> Option<u32>
    ensures { result ≡ owner_then owner client operation }
{
    match owner {
        Some(owner) => Some(owner),
        None => match operation {
            Operation::Claim => Some(client),
            Operation::Read | Operation::Write => None,
        },
    }
}

impl Owners {
    /// No address is granted.
    pub fn new(alloc: Global) -> Result<Owners, Memory>
        ensures { IfOk result (λ o. KnowsOwners o.clients.items []) }
    {
        let mut clients = Vec::with_capacity(alloc, ADDRESSES)?;
        for address in 0..ADDRESSES {
            clients.push(None)?;
        }
        Ok(Owners { clients })
    }

    /// How a request of a client is answered by the virtualiser itself; None where it goes to the
    /// driver. An address that a claim is for is granted where nobody has it.
    pub fn judge(&mut self, client: u32, head: Head) -> Option<BusStatus>
        requires within { head.address < ADDRESSES }
        requires size { length self.old.clients.items ≡ ADDRESSES }
        ensures size { length self.new.clients.items ≡ ADDRESSES }
        ensures verdict { (requests : List Request) (bytes : List ℕ)
            → KnowsOwners self.old.clients.items requests → result ≡ verdict requests (record {
              client = client;
              ask = asked head.operation head.address head.count bytes;
            }) }
        ensures knows { (requests : List Request) (bytes : List ℕ)
            → KnowsOwners self.old.clients.items requests
            → KnowsOwners self.new.clients.items (requests ++ record {
              client = client;
              ask = asked head.operation head.address head.count bytes;
            } ∷ []) }
    {
        let place = usize::from(head.address);
        let owner = self.clients[place];
        self.clients[place] = owner_then(owner, client, head.operation);
        judged(owner, client, head.operation)
    }
}
