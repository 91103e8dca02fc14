//! The lines of hostile clients: `rogue`, of a client of any class.
ghost use Rattle.std.specs.Prelude.{◌≡◌, ◌<◌, ℕ, length, IfOk, OnOk};
ghost use Rattle.trace_text.specs.Events.{rogue_line};
ghost use Rattle.trace_text.specs.Reading.{IsRead, HasLists, with_act};
ghost use Rattle.line_text.specs.Texts.{words_of};
ghost use Rattle.trace_text.specs.Traces.{acts_in_class};

use crate::acts::read_act;
use crate::class::{Class, class_of};
use crate::clients::{client_count, is_rogue};
use crate::reader::{LINES, Reader};
use crate::trace::Trace;
use cargo_core::{Act, Memory};
use line_text::{add_item, read_below};
use sdf_plan::Plan;
use std::alloc::Global;

impl Reader {
    // `rogue CLASS C ACT`
    pub fn read_rogue(
        &mut self,
        alloc: Global,
        plan: &Plan,
        class: &[u8],
        client: &[u8],
        words: &[u8],
    ) -> Result<bool, Memory>
        requires { HasLists plan.now self.old }
        ensures { IfOk result (λ good. IsRead self.old self.new good
            (rogue_line plan.now class.now client.now (words_of words.now))) }
    {
        let class = match class_of(class) {
            Some(class) => class,
            None => return Ok(false),
        };
        let client = match read_below(client, client_count(plan, class) as u64) {
            Some(client) => client,
            None => return Ok(false),
        };
        if !is_rogue(plan, class, client) {
            return Ok(false);
        }
        if self.rogue_lines >= LINES {
            return Ok(false);
        }
        let act = match read_act(class, words) {
            Some(act) => act,
            None => return Ok(false),
        };
        self.trace.keep_act(alloc, class, client as usize, act)?;
        self.rogue_lines += 1;
        Ok(true)
    }
}

impl Trace {
    // Gives a client of a class one more act. After want of memory its class's lists are gone.
    fn keep_act(
        &mut self,
        alloc: Global,
        class: Class,
        client: usize,
        act: Act,
    ) -> Result<(), Memory>
        requires { client < length (acts_in_class self.old class) }
        ensures { OnOk result (self.new ≡ with_act self.old class client act) }
    {
        match class {
            Class::Net => add_item(alloc, &mut self.net_acts, client, act),
            Class::Serial => add_item(alloc, &mut self.serial_acts, client, act),
            Class::Blk => add_item(alloc, &mut self.blk_acts, client, act),
        }
    }
}
