//! A class of one's own over the player, from its first line to its theorem: two sources, each of
//! which puts the bytes of a script, and a joiner with two inputs, which takes from either and then
//! keeps to the one from which it took first. What it recorded is at each moment a beginning of
//! that source's script, and all of it where nobody is runnable.
//!
//! Who brings a class writes, in this order, with some 1,700 lines in all: the kinds of actors,
//! each with its step (`source`, `joiner`: 300 lines); what each must fit, stands for, and which
//! turn it is at (`specs/Sources`, `specs/Joiners`: 150); the one type of them all with the
//! meanings and their laws (`member`, `specs/Members`, `specs/MemberLaws`: 250); what each wants of
//! its ends, and the theorem (`class`, `specs/Pairs`: 150). The proofs are the rest: 290 lines of
//! them draw the theorem from the clauses of `tale_law`, `rest_law` and `quiet_law`.

mod class;
#[cfg(test)]
mod class_tests;
mod joiner;
mod member;
mod source;

pub use class::{pair_law, play_pair};
pub use joiner::{Claim, Joiner};
pub use member::Member;
pub use source::Source;
