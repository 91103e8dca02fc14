//! The buffers that a client has in hand.
ghost use Rattle.std.specs.Prelude.{◌≡◌, ◌≤◌, ◌<◌, [], ◌∷◌, ◌++◌, None, IfOk, length};
ghost use Rattle.std.specs.Option.{option_to_list};
ghost use Rattle.i2c_virt.specs.I2cClient.Hands.{AreBuffers};
ghost use Rattle.i2c_virt.specs.declared.i2c_kit.page.TheConstants.{BUFFERS};

use crate::i2c_kit::{BUFFER_BYTES, BUFFERS};
use cargo_core::{Memory, Page, PoolId};
use std::alloc::Global;
use std::collections::VecDeque;
use std::marker::Model;

/// The buffers that a client has in hand, the one that is used next first.
#[derive(Drop)]
pub struct Hand {
    pages: VecDeque<Page>,
}

impl Model for Hand {
    ghost use Rattle.std.specs.VecDeque.{deque_capacity};
    ghost use Rattle.i2c_virt.specs.I2cClient.Hands.{Held};

    ghost Value = { Held };

    ghost view = { λ h. record { shown = h.pages.items; room = deque_capacity h.pages } };
}

impl Hand {
    /// All buffers of a client, of zeros and in rising number.
    pub fn new(alloc: Global, pool: PoolId) -> Result<Hand, Memory>
        ensures buffers { IfOk result (λ h. AreBuffers pool 0 h.shown) }
        ensures all { IfOk result (λ h. length h.shown ≡ BUFFERS) }
        ensures room { IfOk result (λ h. BUFFERS ≤ h.room) }
    {
        let mut pages = VecDeque::with_capacity(alloc, BUFFERS)?;
        for number in 0..BUFFERS {
            let page = Page::new(alloc, pool, number as u32, BUFFER_BYTES as u32)?;
            pages.push_back_reserved(page);
        }
        Ok(Hand { pages })
    }

    /// A buffer comes, behind the others.
    pub fn push(&mut self, page: Page)
        requires { length self.old.shown < self.old.room }
        ensures shown { self.new.shown ≡ self.old.shown ++ page ∷ [] }
        ensures room { self.new.room ≡ self.old.room }
    {
        self.pages.push_back_reserved(page);
    }

    /// The buffer that is used next. None where there is none.
    pub fn pop(&mut self) -> Option<Page>
        ensures shown { self.old.shown ≡ option_to_list result ++ self.new.shown }
        ensures none { result ≡ None → self.old.shown ≡ [] }
        ensures room { self.new.room ≡ self.old.room }
    {
        self.pages.pop_front()
    }
}
