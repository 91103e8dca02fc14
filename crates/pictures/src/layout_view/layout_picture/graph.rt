//! A layout as a graph in DOT, for those who lay out with Graphviz.
ghost use Rattle.std.specs.Prelude.{◌≡◌, ◌++◌, IfOk, OnOk, string_bytes};
ghost use Rattle.pictures.specs.LayoutView.LayoutPicture.Graph.{node, edge, ends_text, looks_text, card_node};
ghost use Rattle.pictures.specs.LayoutView.LayoutPicture.Graph.{card_nodes, queue_edge, queue_edges, ids_text};
ghost use Rattle.pictures.specs.LayoutView.LayoutPicture.Graph.{ends_edge, channel_edge, channel_edges};
ghost use Rattle.pictures.specs.LayoutView.LayoutPicture.Graph.{region_node_name, region_node, region_nodes};
ghost use Rattle.pictures.specs.LayoutView.LayoutPicture.Graph.{pool_edge, pool_edges, graph_begin, graph_of};

use crate::layout_view::layout_picture::cards::{Card, cards_of};
use crate::layout_view::layout_picture::memory::{base_at, pool_text, range_text};
use crate::layout_view::layout_picture::names::{LayoutRows, name_at, region_name};
use crate::layout_view::layout_picture::owners::owners_of;
use crate::layout_view::layout_picture::queues::{queue_label, standing};
use cargo_core::{Bytes, Memory, Text};
use picture_kit::push_quoted;
use sdf_plan::{Channel, End, Plan, Region};
use std::alloc::Global;
use wire_core::{PoolRow, QueueRow};

// Appends a node.
#[tactic(auto, unfolding(crate::specs::LayoutView::LayoutPicture::Graph::node))]
fn push_node(to: &mut Bytes, name: &str, label: &str) -> Result<(), Memory>
    ensures { OnOk result (to.new ≡ to.old ++ node name.now label.now) }
{
    to.extend_from_slice(b"  ")?;
    push_quoted(to, name.as_bytes())?;
    to.extend_from_slice(b" [label=")?;
    push_quoted(to, label.as_bytes())?;
    to.extend_from_slice(b"];\n")
}

// Appends the two nodes of an edge.
fn push_ends(to: &mut Bytes, from: &str, end: &str) -> Result<(), Memory>
    ensures { OnOk result (to.new ≡ to.old ++ ends_text from.now end.now) }
{
    to.extend_from_slice(b"  ")?;
    push_quoted(to, from.as_bytes())?;
    to.extend_from_slice(b" -> ")?;
    push_quoted(to, end.as_bytes())
}

// Appends what an edge looks like, and its label.
fn push_looks(to: &mut Bytes, looks: &str, label: &str) -> Result<(), Memory>
    ensures { OnOk result (to.new ≡ to.old ++ looks_text looks.now label.now) }
{
    to.extend_from_slice(b" [")?;
    to.extend_from_slice(looks.as_bytes())?;
    to.extend_from_slice(b"label=")?;
    push_quoted(to, label.as_bytes())?;
    to.extend_from_slice(b"];\n")
}

// Appends an edge.
#[tactic(auto, unfolding(crate::specs::LayoutView::LayoutPicture::Graph::edge))]
fn push_edge(to: &mut Bytes, from: &str, end: &str, looks: &str, label: &str) -> Result<(), Memory>
    ensures { OnOk result (to.new ≡ to.old ++ edge from.now end.now looks.now label.now) }
{
    push_ends(to, from, end)?;
    push_looks(to, looks, label)
}

// Appends a device or a domain.
fn push_card(alloc: Global, to: &mut Bytes, card: &Card) -> Result<(), Memory>
    ensures { OnOk result (to.new ≡ to.old ++ card_node card.now) }
{
    let (name, program) = (card.name.as_str(), card.program.as_str());
    let label = format!(in alloc; "{name}\n{program}\n{}", card.rank.as_str())?;
    push_node(to, name, label.as_str())
}

// Appends each device and domain.
#[tactic(auto, unfolding(crate::specs::LayoutView::LayoutPicture::Graph::card_nodes))]
fn push_cards(alloc: Global, to: &mut Bytes, cards: &[Card]) -> Result<(), Memory>
    ensures { OnOk result (to.new ≡ to.old ++ card_nodes cards.now) }
{
    for card in cards {
        push_card(alloc, to, card)?;
    }
    Ok(())
}

// Appends a queue.
fn push_queue(
    alloc: Global,
    to: &mut Bytes,
    regions: &[Region],
    actors: &[Text],
    queue: &QueueRow,
) -> Result<(), Memory>
    ensures { OnOk result (to.new ≡ to.old ++ queue_edge regions.now actors.now queue.now) }
{
    let from = name_at(actors, queue.producer.0 as usize);
    let end = name_at(actors, queue.consumer.0 as usize);
    let first = queue_label(alloc, queue)?;
    let second = standing(alloc, regions, queue)?;
    let label = format!(in alloc; "{}\n{}", first.as_str(), second.as_str())?;
    push_edge(to, from, end, "", label.as_str())
}

// Appends each queue.
#[tactic(auto, unfolding(crate::specs::LayoutView::LayoutPicture::Graph::queue_edges))]
fn push_queues(
    alloc: Global,
    to: &mut Bytes,
    regions: &[Region],
    actors: &[Text],
    queues: &[QueueRow],
) -> Result<(), Memory>
    ensures { OnOk result (to.new ≡ to.old
        ++ queue_edges regions.now actors.now queues.now) }
{
    for queue in queues {
        push_queue(alloc, to, regions, actors, queue)?;
    }
    Ok(())
}

// The ids by which two ends know a channel.
fn ids_text(alloc: Global, c: usize, first: &End, second: &End) -> Result<String, Memory>
    ensures { IfOk result (λ text. string_bytes text ≡ ids_text c first.now second.now) }
{
    let mut text = format!(in alloc; "channel {c}: {}", first.id)?;
    write!(text, ", {}", second.id)?;
    Ok(text)
}

// Appends what joins the first two ends of a channel.
fn push_between(alloc: Global, to: &mut Bytes, c: usize, ends: &[End]) -> Result<(), Memory>
    ensures { OnOk result (to.new ≡ to.old ++ ends_edge c ends.now) }
{
    match ends {
        [first, second, ..] => {
            let label = ids_text(alloc, c, first, second)?;
            let (from, end) = (first.pd.as_str(), second.pd.as_str());
            push_edge(to, from, end, "dir=none, style=dashed, ", label.as_str())
        }
        _ => Ok(()),
    }
}

// Appends a channel.
fn push_channel(alloc: Global, to: &mut Bytes, c: usize, channel: &Channel) -> Result<(), Memory>
    ensures { OnOk result (to.new ≡ to.old ++ channel_edge c channel.now) }
{
    push_between(alloc, to, c, channel.end.as_slice())
}

// Appends each channel.
#[tactic(auto, unfolding(crate::specs::LayoutView::LayoutPicture::Graph::channel_edges))]
fn push_channels(alloc: Global, to: &mut Bytes, channels: &[Channel]) -> Result<(), Memory>
    ensures { OnOk result (to.new ≡ to.old ++ channel_edges channels.now) }
{
    for c in 0..channels.len() {
        push_channel(alloc, to, c, &channels[c])?;
    }
    Ok(())
}

// What the node of a region is called.
fn region_node_name(alloc: Global, name: &str) -> Result<String, Memory>
    ensures { IfOk result (λ text. string_bytes text ≡ region_node_name name.now) }
{
    Ok(format!(in alloc; "region {name}")?)
}

// Appends a region.
fn push_region(alloc: Global, to: &mut Bytes, base: u64, region: &Region) -> Result<(), Memory>
    ensures { OnOk result (to.new ≡ to.old ++ region_node base region.now) }
{
    let name = region.name.as_str();
    let range = range_text(alloc, base, region.size)?;
    let node = region_node_name(alloc, name)?;
    let label = format!(in alloc; "{name}\n{}", range.as_str())?;
    push_node(to, node.as_str(), label.as_str())
}

// Appends each region.
#[tactic(auto, unfolding(crate::specs::LayoutView::LayoutPicture::Graph::region_nodes))]
fn push_regions(
    alloc: Global,
    to: &mut Bytes,
    bases: &[u64],
    regions: &[Region],
) -> Result<(), Memory>
    ensures { OnOk result (to.new ≡ to.old ++ region_nodes bases.now regions.now) }
{
    for r in 0..regions.len() {
        push_region(alloc, to, base_at(bases, r), &regions[r])?;
    }
    Ok(())
}

// Appends a pool.
fn push_pool(
    alloc: Global,
    to: &mut Bytes,
    regions: &[Region],
    owner: &str,
    pool: &PoolRow,
) -> Result<(), Memory>
    ensures { OnOk result (to.new ≡ to.old ++ pool_edge regions.now owner.now pool.now) }
{
    let node = region_node_name(alloc, region_name(regions, pool.region))?;
    let label = pool_text(alloc, owner, pool)?;
    let looks = "dir=none, style=dotted, ";
    push_edge(to, owner, node.as_str(), looks, label.as_str())
}

// Appends each pool.
#[tactic(auto, unfolding(crate::specs::LayoutView::LayoutPicture::Graph::pool_edges))]
fn push_pools(
    alloc: Global,
    to: &mut Bytes,
    regions: &[Region],
    owners: &[Text],
    pools: &[PoolRow],
) -> Result<(), Memory>
    ensures { OnOk result (to.new ≡ to.old ++ pool_edges regions.now owners.now pools.now) }
{
    for k in 0..pools.len() {
        push_pool(alloc, to, regions, name_at(owners, k), &pools[k])?;
    }
    Ok(())
}

// Appends what a graph begins with.
#[tactic(auto, unfolding(crate::specs::LayoutView::LayoutPicture::Graph::graph_begin))]
fn push_begin(to: &mut Bytes) -> Result<(), Memory>
    ensures { OnOk result (to.new ≡ to.old ++ graph_begin) }
{
    to.extend_from_slice(b"digraph system {\n  node [shape=box];\n")
}

/// The layout of a plan as a graph in DOT: a node for each device, each domain and each region, and
/// an edge for each queue, each channel and each pool, each once and in the order of the rows. The
/// only error is want of memory. This project's own.
#[tactic(auto, unfolding(crate::specs::LayoutView::LayoutPicture::Graph::graph_of))]
pub fn write_graph(alloc: Global, plan: &Plan, rows: &LayoutRows<'_>) -> Result<Bytes, Memory>
    ensures { IfOk result (λ text. text ≡ graph_of plan.now rows.now.bases.now
        rows.now.queues.now rows.now.pools.now rows.now.actors.now) }
{
    let mut text = Bytes::new(alloc);
    let regions = plan.memory_region.as_slice();
    let cards = cards_of(alloc, plan)?;
    let owners = owners_of(alloc, plan)?;
    push_begin(&mut text)?;
    push_cards(alloc, &mut text, cards.as_slice())?;
    push_queues(alloc, &mut text, regions, rows.actors, rows.queues)?;
    push_channels(alloc, &mut text, plan.channel.as_slice())?;
    push_regions(alloc, &mut text, rows.bases, regions)?;
    push_pools(alloc, &mut text, regions, owners.as_slice(), rows.pools)?;
    text.extend_from_slice(b"}\n")?;
    Ok(text)
}
