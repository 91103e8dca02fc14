//! `small_system`: a class of one's own at play, two sources and a joiner.

use crate::class_example::{Member, play_pair};
use cargo_core::{Bytes, Memory};
use std::alloc::Global;

/// Two sources of three bytes each and a joiner, played until nobody is runnable.
pub fn show_class(alloc: Global) -> Result<String, Memory> {
    let one = Bytes::from_slice(alloc, b"abc")?;
    let other = Bytes::from_slice(alloc, b"xyz")?;
    let (small, quiet) = play_pair(alloc, one, other, 0, 1_000)?;
    let got = match small.actors().get(2) {
        Some(Member::Joiner(joiner)) => joiner.got(),
        _ => b"".as_slice(),
    };
    let mut text = format!(in alloc; "nobody is runnable: {quiet}\n")?;
    write!(text, "the joiner got {} bytes\n", got.len())?;
    Ok(text)
}
