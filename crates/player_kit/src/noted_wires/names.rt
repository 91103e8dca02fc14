//! The names of the pages that entries carry, each kept with the queue to which its entry was put.
ghost use Rattle.std.specs.Prelude.{◌≡◌};
ghost use Rattle.play_core.specs.Names.{name_of};

use cargo_core::Body;
use std::marker::Model;
use wire_core::QueueId;

/// A page by its pool and its number there.
#[derive(Drop)]
pub struct Tag {
    pool: u16,
    number: u32,
}

impl Model for Tag {
    ghost use Rattle.play_core.specs.Names.{Tag as Seen};

    ghost Value = { Seen };

    ghost view = { λ t. record { pool = t.pool; number = t.number } };
}

/// The name of what an entry carries, if it carries a page, with the queue to which it was put.
#[derive(Drop)]
pub struct Noted {
    queue: u16,
    name: Option<Tag>,
}

impl Model for Noted {
    ghost use Rattle.play_core.specs.Names.{Noted as Seen};

    ghost Value = { Seen };

    ghost view = { λ n. record { queue = n.queue; name = n.name } };
}

impl Noted {
    /// The name of an entry that was put to this queue.
    pub fn new(queue: QueueId, name: Option<Tag>) -> Noted
        ensures { result ≡ record { queue = queue.0; name = name } }
    {
        Noted {
            queue: queue.0,
            name,
        }
    }
}

/// The name of what a body carries.
pub fn name_of(body: &Body) -> Option<Tag>
    ensures { result ≡ name_of body.now }
{
    match body {
        Body::Page(page) => {
            let pool = page.pool().0;
            let number = page.no();
            Some(Tag { pool, number })
        }
        _ => None,
    }
}
