//! How one row is made from the columns of its table.
ghost use Rattle.std.specs.Prelude.{◌≡◌, [], Some, None};
ghost use Rattle.sdf_plan.specs.ClassTable.Rows.{whole, of_client, across, queue, queue_behind, reads};
ghost use Rattle.sdf_plan.specs.ClassTable.Rows.{writes, plays};
ghost use Rattle.sdf_plan.specs.ClassTable.Shown.{use_name_shown, ends_shown, queue_shown, grant_shown};
ghost use Rattle.sdf_plan.specs.ClassTable.Shown.{role_shown};

use crate::class_table::role::Role;
use crate::class_table::uses::{Ends, Grant, Link, QueueUse, RoleUse, UseName};
use cargo_core::QueueKind;

/// The name of a queue or a pool of a class.
pub fn whole(first: &str) -> UseName<&str>
    ensures { use_name_shown result ≡ whole first.now }
{
    UseName {
        first,
        client: None,
        rest: "",
    }
}

/// The name of a queue or a pool of a client.
pub fn of_client<'a>(first: &'a str, client: u32, rest: &'a str) -> UseName<&'a str>
    ensures { use_name_shown result ≡ of_client first.now client rest.now }
{
    UseName {
        first,
        client: Some(client),
        rest,
    }
}

/// A domain plays a role.
pub fn plays(domain: &str, role: Role) -> RoleUse<&str>
    ensures { role_shown result ≡ plays domain.now role }
{
    RoleUse { domain, role }
}

/// In a region, from one domain to another.
pub fn across<'a>(region: &'a str, from: &'a str, to: &'a str) -> Ends<&'a str>
    ensures { ends_shown result ≡ across region.now from.now to.now }
{
    Ends::Across(Link { region, from, to })
}

/// A row of the table of queues.
pub fn queue<'a>(
    name: UseName<&'a str>,
    kind: QueueKind,
    ends: Ends<&'a str>,
    capacity: u64,
    holds: u128,
) -> QueueUse<&'a str>
    ensures { queue_shown result
        ≡ queue (use_name_shown name.entry) kind (ends_shown ends.entry) capacity holds }
{
    QueueUse {
        name,
        kind,
        ends,
        behind: None,
        capacity,
        holds,
    }
}

/// The row of a queue that stands behind one of a kind in its region.
pub fn queue_behind<'a>(
    first: QueueKind,
    name: UseName<&'a str>,
    kind: QueueKind,
    ends: Ends<&'a str>,
    capacity: u64,
    holds: u128,
) -> QueueUse<&'a str>
    ensures { queue_shown result
        ≡ queue_behind first (use_name_shown name.entry) kind
        (ends_shown ends.entry) capacity holds }
{
    QueueUse {
        name,
        kind,
        ends,
        behind: Some(first),
        capacity,
        holds,
    }
}

/// A domain must map a region to read it.
pub fn reads(domain: &str) -> Grant<&str>
    ensures { grant_shown result ≡ reads domain.now }
{
    Grant {
        domain,
        writes: false,
    }
}

/// A domain must map a region to read and to write it.
pub fn writes(domain: &str) -> Grant<&str>
    ensures { grant_shown result ≡ writes domain.now }
{
    Grant {
        domain,
        writes: true,
    }
}
