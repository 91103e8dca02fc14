//! A shelf of texts in memory, which fails the calls that it is told to.
ghost use Rattle.std.specs.Prelude.{◌≡◌, ◌≤◌, ◌<◌, ◌∷◌, ◌++◌, [], ℕ, None, length, OnOk, OnErr};
ghost use Rattle.std.specs.Prelude.{◌+◌, ◌^◌, drop};
ghost use Rattle.decision_core.specs.ShelfCore.Outside.{FailsLast};
ghost use Rattle.decision_core.specs.ShelfCore.Names.{place_under, left_of};
ghost use Rattle.decision_core.specs.ShelfCore.FaultPlans.{unplanned};

use crate::shelf_core::fault_plan::FaultPlan;
use crate::shelf_core::{Failed, Shelf};
use cargo_core::{Bytes, Memory, Text};
use std::alloc::Global;
use std::marker::Model;

/// A text under its name.
#[derive(Debug, Drop)]
pub struct NamedText {
    pub name: Text,
    pub text: Bytes,
}

/// Texts in memory. It counts the calls of its trait from 0, opens among them, and fails those that
/// it was told to. Until `piece` is called, a read gives as many bytes as it can.
#[derive(Drop)]
pub struct MemShelf {
    alloc: Global,
    kept: Vec<NamedText>,
    opened: Option<usize>,
    at: usize,
    plan: FaultPlan,
}

impl Model for MemShelf {
    ghost use Rattle.decision_core.specs.ShelfCore.Names.{Shelved};

    ghost Value = { Shelved };

    ghost view = { λ s. record {
      kept = s.kept.items;
      opened = s.opened;
      at = s.at;
      plan = s.plan;
    } };
}

impl MemShelf {
    /// No texts. It takes no memory.
    pub fn new(alloc: Global) -> MemShelf
        ensures kept { result.kept ≡ [] }
        ensures opened { result.opened ≡ None }
        ensures plan { result.plan ≡ unplanned }
    {
        MemShelf {
            alloc,
            kept: Vec::new(alloc),
            opened: None,
            at: 0,
            plan: FaultPlan::new(alloc),
        }
    }

    /// Adds a text, which stands in place of one that had this name. No text is open afterwards.
    pub fn add(&mut self, name: &str, text: &[u8]) -> Result<(), Memory>
        ensures ok { OnOk result (self.new.kept
            ≡ (record { name = name.now; text = text.now }) ∷ self.old.kept) }
        ensures err { OnErr result (self.new.kept ≡ self.old.kept) }
        ensures closed { self.new.opened ≡ None }
        ensures plan { self.new.plan ≡ self.old.plan }
    {
        self.opened = None;
        let kept = NamedText {
            name: Text::new(self.alloc, name)?,
            text: Bytes::from_slice(self.alloc, text)?,
        };
        self.kept.insert(0, kept)?;
        Ok(())
    }

    /// Fails the call of this number.
    pub fn fail_at(&mut self, call: u64) -> Result<(), Memory>
        ensures ok { OnOk result (self.new ≡ record self.old {
          plan = record self.old.plan { failing = self.old.plan.failing ++ call ∷ [] };
        }) }
        ensures err { OnErr result (self.new ≡ self.old) }
    {
        self.plan.fail_at(call)
    }

    /// Gives at most so many bytes in one call.
    pub fn piece(&mut self, most: usize)
        requires { 1 ≤ most }
        ensures { self.new
            ≡ record self.old { plan = record self.old.plan { piece = most } } }
    {
        self.plan.set_piece(most);
    }

    /// The text that is open fails.
    fn fail(&mut self) -> Failed
        ensures kept { self.new.kept ≡ self.old.kept }
        ensures plan { self.new.plan
            ≡ record self.old.plan {
              faults = self.new.plan.faults;
              failed = self.new.plan.failed;
            } }
        ensures closed { self.new.opened ≡ None }
        ensures fails { FailsLast self.old.plan.faults self.new.plan.faults self.new.plan.failed }
        ensures rising { self.old.plan.faults ≤ self.new.plan.faults }
    {
        self.opened = None;
        self.plan.fail()
    }

    /// The place of the text of a name.
    fn place_of(&self, name: &str) -> Option<usize>
        ensures { result ≡ place_under self.now.kept name.now }
    {
        self.kept.iter().position(|k| k.name.as_str() == name)
    }

    /// What is left of the open text.
    fn left(&self) -> &[u8]
        ensures left { result.now ≡ left_of self.now.kept self.now.opened self.now.at }
        ensures fits { self.now.at + length result.now < 2 ^ 64 }
    {
        let at = self.at;
        match self.opened {
            Some(place) if place < self.kept.len() => {
                let kept = &self.kept[place];
                let text = kept.text.as_slice();
                if at < text.len() { &text[at..] } else { &[] }
            }
            _ => &[],
        }
    }
}

impl MemShelf {
    /// Goes on behind the next bytes.
    fn skip(&mut self, n: usize)
        requires { self.old.at + n < 2 ^ 64 }
        ensures left { left_of self.new.kept self.new.opened self.new.at
            ≡ drop n (left_of self.old.kept self.old.opened self.old.at) }
        ensures kept { self.new.kept ≡ self.old.kept }
        ensures plan { self.new.plan ≡ self.old.plan }
    {
        self.at += n;
    }
}

impl Shelf for MemShelf {
    ghost use Rattle.std.specs.Prelude.{Some, List, IfOk, IfSome, is_ok, is_some, not, false, ◌&&◌};
    ghost use Rattle.decision_core.specs.ShelfCore.Names.{text_under, left_of, bytes_given};
    ghost use Rattle.std.specs.Option.{option_map};
    ghost use Rattle.decision_core.specs.ShelfCore.FaultPlans.{Counted, is_due};
    ghost use Rattle.decision_core.specs.ShelfCore.Outside.{GivesNext, IsAtEnd};

    ghost text = { λ s name. text_under s.kept name };

    ghost left = { λ s. Some (left_of s.kept s.opened s.at) };

    ghost opens = { λ _. None };

    ghost faults = { λ s. s.plan.faults };

    ghost failed = { λ s. s.plan.failed };

    /// It counts the call, and fails where the call is listed or the name isn't there.
    fn open(&mut self, name: &str) -> Result<(), Failed>
        ensures texts { (n : List ℕ) → text_under self.new.kept n ≡ text_under self.old.kept n }
        ensures rising { self.old.plan.faults ≤ self.new.plan.faults }
        ensures opened { OnOk result (Some (left_of self.new.kept self.new.opened self.new.at)
            ≡ text_under self.old.kept name.now) }
        ensures calm { OnOk result (self.new.plan.faults ≡ self.old.plan.faults) }
        ensures passed { OnOk result (self.new.plan.failed ≡ false) }
        ensures fault { OnErr result (FailsLast self.old.plan.faults self.new.plan.faults
            self.new.plan.failed) }
        ensures ended { OnErr result (IsAtEnd (Some (left_of self.new.kept self.new.opened
            self.new.at))) }
        ensures counted { Counted self.old.plan self.new.plan }
        ensures fails { is_ok result ≡ (not (is_due self.old.plan)
            && is_some (place_under self.old.kept name.now)) }
    {
        if self.plan.is_failing() {
            return Err(self.fail());
        }
        let Some(place) = self.place_of(name) else {
            return Err(self.fail());
        };
        self.opened = Some(place);
        self.at = 0;
        Ok(())
    }

    /// It counts the call, and fails where the call is listed. Else it gives as many bytes as it
    /// can, but no more than a piece.
    fn read(&mut self, into: &mut [u8]) -> Result<usize, Failed>
        ensures texts { (n : List ℕ) → text_under self.new.kept n ≡ text_under self.old.kept n }
        ensures rising { self.old.plan.faults ≤ self.new.plan.faults }
        ensures bound { IfOk result (λ n. n ≤ length into.new) }
        ensures bytes { IfOk result (λ n. IfSome (Some (left_of self.old.kept self.old.opened
            self.old.at)) (λ l. GivesNext l n into.new)) }
        ensures rest { IfOk result (λ n. Some (left_of self.new.kept self.new.opened self.new.at)
            ≡ option_map (drop n) (Some (left_of self.old.kept self.old.opened self.old.at))) }
        ensures calm { OnOk result (self.new.plan.faults ≡ self.old.plan.faults) }
        ensures passed { OnOk result (self.new.plan.failed ≡ false) }
        ensures fault { OnErr result (FailsLast self.old.plan.faults self.new.plan.faults
            self.new.plan.failed) }
        ensures ended { OnErr result (IsAtEnd (Some (left_of self.new.kept self.new.opened
            self.new.at))) }
        ensures counted { Counted self.old.plan self.new.plan }
        ensures fails { is_ok result ≡ not (is_due self.old.plan) }
        ensures most { IfOk result (λ n. n ≡ bytes_given self.old (length into.old)) }
    {
        if self.plan.is_failing() {
            return Err(self.fail());
        }
        let left = self.left();
        let n = left.len().min(into.len()).min(self.plan.piece().max(1));
        into[..n].copy_from_slice(&left[..n]);
        self.skip(n);
        Ok(n)
    }
}
