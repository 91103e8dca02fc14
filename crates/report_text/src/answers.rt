//! The answers of one line.

ghost use Rattle.std.specs.Prelude.{◌≡◌, ◌<◌, ◌^◌, [], length, IfOk, string_bytes};
ghost use Rattle.std.specs.Option.{option_map_or};
ghost use Rattle.region_layout.specs.Rows.{queues_of, net_queues, serial_queues, blk_queues};
ghost use Rattle.report_text.specs.Answers.{usage_text, accepted_text, refused_text};
ghost use Rattle.report_text.specs.Answers.{bad_trace_text, long_text};

use crate::write_place;
use cargo_core::Memory;
use sdf_plan::{Plan, Refusal};
use std::alloc::Global;

/// The line for words that are no command: the place of the first bad word, counted from 0. The
/// spellings here are this project's own; the only error of each is want of memory.
pub fn write_usage(alloc: Global, k: u32) -> Result<String, Memory>
    ensures { IfOk result (λ s. string_bytes s ≡ usage_text k) }
{
    Ok(format!(in alloc; "usage: word {k}\n")?)
}

/// The line for a description that is refused: the rule that it breaks, and the place.
pub fn write_refused(alloc: Global, refusal: &Refusal) -> Result<String, Memory>
    ensures { IfOk result (λ s. string_bytes s ≡ refused_text refusal.now) }
{
    let place = write_place(alloc, refusal.place)?;
    Ok(format!(in alloc; "refused {} {}\n", refusal.rule, place.as_str())?)
}

/// The line for a trace that is refused: its first bad line, counted from 1.
pub fn write_bad_trace(alloc: Global, line: u64) -> Result<String, Memory>
    ensures { IfOk result (λ s. string_bytes s ≡ bad_trace_text line) }
{
    Ok(format!(in alloc; "bad trace line {line}\n")?)
}

/// The line for a description or a trace that is too long.
pub fn write_too_long(alloc: Global) -> Result<String, Memory>
    ensures { IfOk result (λ s. string_bytes s ≡ long_text) }
{
    Ok(String::from_str(alloc, "too long\n")?)
}

// How many queues the network class of a plan has.
#[tactic(auto, using(crate::proofs::QueueLemmas::net_count))]
fn net_count(plan: &Plan) -> u128
    ensures count { result ≡ length (option_map_or (net_queues plan.now) plan.now.net []) }
    ensures small { result < 2 ^ 67 }
{
    match &plan.net {
        Some(net) => 8 + 6 * net.client.len() as u128,
        None => 0,
    }
}

// How many queues the serial class of a plan has.
#[tactic(auto, using(crate::proofs::QueueLemmas::serial_count))]
fn serial_count(plan: &Plan) -> u128
    ensures count { result ≡ length (option_map_or (serial_queues plan.now) plan.now.serial []) }
    ensures small { result < 2 ^ 67 }
{
    match &plan.serial {
        Some(serial) => 4 + 2 * serial.client.len() as u128,
        None => 0,
    }
}

// How many queues the block class of a plan has.
#[tactic(auto, using(crate::proofs::QueueLemmas::blk_count))]
fn blk_count(plan: &Plan) -> u128
    ensures count { result ≡ length (option_map_or (blk_queues plan.now) plan.now.blk []) }
    ensures small { result < 2 ^ 67 }
{
    match &plan.blk {
        Some(blk) => 4 + 2 * blk.client.len() as u128,
        None => 0,
    }
}

// How many queues a plan has.
#[tactic(auto, using(crate::proofs::QueueLemmas::all_counts))]
fn queue_count(plan: &Plan) -> u128
    ensures { result ≡ length (queues_of plan.now) }
{
    net_count(plan) + serial_count(plan) + blk_count(plan)
}

/// The line for a description that is accepted: how many domains, regions, channels and queues its
/// plan has.
pub fn write_accepted(alloc: Global, plan: &Plan) -> Result<String, Memory>
    ensures { IfOk result (λ s. string_bytes s ≡ accepted_text plan.now) }
{
    let domains = plan.protection_domain.len();
    let regions = plan.memory_region.len();
    let channels = plan.channel.len();
    let queues = queue_count(plan);
    let mut text = format!(in alloc; "accepted domains {domains} regions {regions}")?;
    write!(text, " channels {channels} queues {queues}\n")?;
    Ok(text)
}
