//! A line of a trace: its words, and which sort of line they make.
ghost use Rattle.std.specs.Prelude.{[], ◌∷◌, IfOk};
ghost use Rattle.trace_text.specs.Events.{blk_line, words_say, meaning};
ghost use Rattle.trace_text.specs.Reading.{IsRead, HasLists};
ghost use Rattle.line_text.specs.Texts.{words_of};

use crate::reader::Reader;
use cargo_core::Memory;
use line_text::{is_skipped, same_text, split_once};
use sdf_plan::Plan;
use std::alloc::Global;

impl Reader {
    // Reads one line; false where it is bad.
    pub fn read_line(&mut self, alloc: Global, plan: &Plan, line: &[u8]) -> Result<bool, Memory>
        requires { HasLists plan.now self.old }
        ensures { IfOk result (λ good. IsRead self.old self.new good (meaning plan.now line.now)) }
    {
        if is_skipped(line) {
            return Ok(true);
        }
        match split_once(line, b' ') {
            None => Ok(false),
            Some((name, rest)) => self.read_named(alloc, plan, name, rest),
        }
    }

    // Reads a line of two words or more.
    fn read_named(
        &mut self,
        alloc: Global,
        plan: &Plan,
        name: &[u8],
        rest: &[u8],
    ) -> Result<bool, Memory>
        requires { HasLists plan.now self.old }
        ensures { IfOk result (λ good. IsRead self.old self.new good
            (words_say plan.now (name.now ∷ words_of rest.now))) }
    {
        match split_once(rest, b' ') {
            None => self.read_two(alloc, plan, name, rest),
            Some((second, rest)) => self.read_longer(alloc, plan, name, second, rest),
        }
    }

    // Reads a line of two words.
    fn read_two(
        &mut self,
        alloc: Global,
        plan: &Plan,
        name: &[u8],
        second: &[u8],
    ) -> Result<bool, Memory>
        requires { HasLists plan.now self.old }
        ensures { IfOk result (λ good. IsRead self.old self.new good
            (words_say plan.now (name.now ∷ second.now ∷ []))) }
    {
        if same_text(name, "rx") {
            return self.read_rx(alloc, plan, second);
        }
        if same_text(name, "in") {
            return self.read_in(alloc, plan, second);
        }
        if same_text(name, "disk") {
            return self.read_disk(alloc, plan, second);
        }
        Ok(false)
    }

    // Reads a line of three words or more.
    fn read_longer(
        &mut self,
        alloc: Global,
        plan: &Plan,
        name: &[u8],
        second: &[u8],
        rest: &[u8],
    ) -> Result<bool, Memory>
        requires { HasLists plan.now self.old }
        ensures { IfOk result (λ good. IsRead self.old self.new good
            (words_say plan.now (name.now ∷ second.now ∷ words_of rest.now))) }
    {
        match split_once(rest, b' ') {
            None => self.read_three(alloc, plan, name, second, rest),
            Some((third, rest)) => self.read_long(alloc, plan, name, second, third, rest),
        }
    }

    // Reads a line of three words.
    fn read_three(
        &mut self,
        alloc: Global,
        plan: &Plan,
        name: &[u8],
        second: &[u8],
        third: &[u8],
    ) -> Result<bool, Memory>
        requires { HasLists plan.now self.old }
        ensures { IfOk result (λ good. IsRead self.old self.new good
            (words_say plan.now (name.now ∷ second.now ∷ third.now ∷ []))) }
    {
        if same_text(name, "send") {
            return self.read_send(alloc, plan, second, third);
        }
        if same_text(name, "say") {
            return self.read_say(alloc, plan, second, third);
        }
        if same_text(name, "bytes") {
            return self.read_bytes(alloc, plan, second, third);
        }
        if same_text(name, "blk") {
            return self.read_order(alloc, plan, second, third);
        }
        Ok(false)
    }

    // Reads a line of four words or more.
    fn read_long(
        &mut self,
        alloc: Global,
        plan: &Plan,
        name: &[u8],
        second: &[u8],
        third: &[u8],
        rest: &[u8],
    ) -> Result<bool, Memory>
        requires { HasLists plan.now self.old }
        ensures { IfOk result (λ good. IsRead self.old self.new good
            (words_say plan.now (name.now ∷ second.now ∷ third.now ∷ words_of rest.now))) }
    {
        if same_text(name, "blk") {
            return self.read_blk(alloc, plan, second, third, rest);
        }
        if same_text(name, "rogue") {
            return self.read_rogue(alloc, plan, second, third, rest);
        }
        Ok(false)
    }

    // Reads a `blk` line of four words or more.
    fn read_blk(
        &mut self,
        alloc: Global,
        plan: &Plan,
        client: &[u8],
        code: &[u8],
        rest: &[u8],
    ) -> Result<bool, Memory>
        requires { HasLists plan.now self.old }
        ensures { IfOk result (λ good. IsRead self.old self.new good
            (blk_line plan.now client.now code.now (words_of rest.now))) }
    {
        match split_once(rest, b' ') {
            None => Ok(false),
            Some((first, rest)) => self.read_blocks(alloc, plan, client, code, first, rest),
        }
    }

    // Reads a `blk` line of five words or more.
    fn read_blocks(
        &mut self,
        alloc: Global,
        plan: &Plan,
        client: &[u8],
        code: &[u8],
        first: &[u8],
        rest: &[u8],
    ) -> Result<bool, Memory>
        requires { HasLists plan.now self.old }
        ensures { IfOk result (λ good. IsRead self.old self.new good
            (blk_line plan.now client.now code.now (first.now ∷ words_of rest.now))) }
    {
        match split_once(rest, b' ') {
            None => {
                if !same_text(code, "read") {
                    return Ok(false);
                }
                self.read_read(alloc, plan, client, first, rest)
            }
            Some((many, word)) => {
                if !same_text(code, "write") {
                    return Ok(false);
                }
                match split_once(word, b' ') {
                    Some(_) => Ok(false),
                    None => self.read_write(alloc, plan, client, first, many, word),
                }
            }
        }
    }
}
