//! The rows that are drawn, and names that are looked up in them.
ghost use Rattle.std.specs.Prelude.{◌≡◌};
ghost use Rattle.pictures.specs.LayoutView.LayoutPicture.Names.{name_at, region_name, kind_name};

use cargo_core::{QueueKind, Text};
use sdf_plan::Region;
use wire_core::{PoolRow, QueueRow};

/// What the layout of a plan has: the base of each region, the queues, the pools and the names of
/// the actors, each by their numbers.
#[derive(Clone, Copy)]
pub struct LayoutRows<'a> {
    pub bases: &'a [u64],
    pub queues: &'a [QueueRow],
    pub pools: &'a [PoolRow],
    pub actors: &'a [Text],
}

/// The name at a place of a list; nothing where the list ends before it.
pub fn name_at(names: &[Text], k: usize) -> &str
    ensures { result.now ≡ name_at names.now k }
{
    match names.get(k) {
        Some(name) => name.as_str(),
        None => "",
    }
}

/// The name of the region at a place; nothing where the regions end before it.
pub fn region_name(regions: &[Region], r: u32) -> &str
    ensures { result.now ≡ region_name regions.now r }
{
    match regions.get(r as usize) {
        Some(region) => region.name.as_str(),
        None => "",
    }
}

/// What a queue carries, in a word.
pub fn kind_name(kind: QueueKind) -> &'static str
    ensures { result.now ≡ kind_name kind }
{
    match kind {
        QueueKind::Net => "net",
        QueueKind::Byte => "byte",
        QueueKind::Req => "request",
        QueueKind::Resp => "response",
    }
}
