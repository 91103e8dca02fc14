//! The boxes: one for each device and each domain.
ghost use Rattle.std.specs.Prelude.{◌≡◌, ◌≤◌, ◌^◌, [], ◌∷◌, ◌++◌, length, map, IfOk, OnOk};
ghost use Rattle.picture_kit.specs.Shapes.{words};
ghost use Rattle.pictures.specs.LayoutView.LayoutPicture.Grid.{IsSmall};
ghost use Rattle.pictures.specs.LayoutView.LayoutPicture.Cards.{device_card, domain_card, devices_if, cards_of};
ghost use Rattle.pictures.specs.LayoutView.LayoutPicture.Cards.{column_of, frame_shapes, card_shapes, draw_each};

use crate::layout_view::layout_picture::grid::{BOX_HEIGHT, BOX_TOP, Grid};
use cargo_core::{Memory, Series, Text};
use picture_kit::{Area, Form, Ink, Shape, Spot};
use sdf_plan::{Domain, Plan};
use std::alloc::Global;

/// What stands in a box: a name, and two lines below it.
#[derive(Debug, Drop)]
pub struct Card {
    pub ink: Ink,
    pub name: Text,
    pub program: Text,
    pub rank: Text,
}

// The box of a device.
fn device_card(alloc: Global, name: &str) -> Result<Card, Memory>
    ensures { IfOk result (λ card. card ≡ device_card name.now) }
{
    Ok(Card {
        ink: Ink::Device,
        name: Text::new(alloc, name)?,
        program: Text::new(alloc, "device")?,
        rank: Text::new(alloc, "")?,
    })
}

// The box of a domain.
fn domain_card(alloc: Global, domain: &Domain) -> Result<Card, Memory>
    ensures { IfOk result (λ card. card ≡ domain_card domain.now) }
{
    let rank = format!(in alloc; "priority {}", domain.priority)?;
    Ok(Card {
        ink: Ink::Domain,
        name: Text::new(alloc, domain.name.as_str())?,
        program: Text::new(alloc, domain.program.as_str())?,
        rank: Text::new(alloc, rank.as_str())?,
    })
}

// Appends the box of a device, where its class is there.
fn add_device(
    alloc: Global,
    cards: &mut Series<Card>,
    there: bool,
    name: &str,
) -> Result<(), Memory>
    ensures { OnOk result (cards.new ≡ cards.old ++ devices_if there name.now) }
{
    if there {
        cards.push(device_card(alloc, name)?)?;
    }
    Ok(())
}

// Appends the box of each domain.
fn add_domains(alloc: Global, cards: &mut Series<Card>, domains: &[Domain]) -> Result<(), Memory>
    ensures { OnOk result (cards.new ≡ cards.old ++ map domain_card domains.now) }
{
    for domain in domains {
        cards.push(domain_card(alloc, domain)?)?;
    }
    Ok(())
}

/// The boxes of a plan: its devices, and its domains in file order, each once.
pub fn cards_of(alloc: Global, plan: &Plan) -> Result<Series<Card>, Memory>
    ensures { IfOk result (λ cards. cards ≡ cards_of plan.now) }
{
    let mut cards = Series::new(alloc);
    add_device(alloc, &mut cards, plan.net.is_some(), "@eth")?;
    add_device(alloc, &mut cards, plan.serial.is_some(), "@uart")?;
    add_device(alloc, &mut cards, plan.blk.is_some(), "@disk")?;
    add_domains(alloc, &mut cards, plan.protection_domain.as_slice())?;
    Ok(cards)
}

/// The column of the box that has a name; the one behind the last where none has it.
pub fn column_of(cards: &[Card], name: &str) -> usize
    ensures column { result ≡ column_of name.now cards.now }
    ensures within { result ≤ length cards.now }
{
    for (k, card) in cards.iter().enumerate() {
        if card.name.as_str() == name {
            return k;
        }
    }
    cards.len()
}

// Appends one line of a box.
fn add_line(
    alloc: Global,
    shapes: &mut Series<Shape>,
    x: u64,
    y: u64,
    text: &Text,
) -> Result<(), Memory>
    ensures { OnOk result (shapes.new ≡ shapes.old ++ words Ink.Label x y text.now ∷ []) }
{
    shapes.push(Shape::words(alloc, Ink::Label, x, y, text.as_str())?)
}

// Appends the frame of a box, its owner's colour and the line below it.
fn add_frame(
    alloc: Global,
    shapes: &mut Series<Shape>,
    grid: &Grid,
    k: u64,
    card: &Card,
) -> Result<(), Memory>
    requires small { IsSmall grid.now }
    requires rows { k ≤ 2 ^ 40 }
    ensures { OnOk result (shapes.new ≡ shapes.old ++ frame_shapes grid.now k card.now) }
{
    let (x, width) = (grid.column_x(k), grid.box_width());
    let middle = grid.middle_x(k);
    let frame = Area {
        x,
        y: BOX_TOP,
        width,
        height: BOX_HEIGHT,
    };
    let band = Area {
        x,
        y: BOX_TOP,
        width,
        height: 6,
    };
    let below = Spot::new(middle, BOX_TOP + BOX_HEIGHT);
    let end = Spot::new(middle, grid.channel_y(grid.channels) - 24);
    shapes.push(Shape::noted(alloc, card.ink, Form::Block(frame), card.name.as_str())?)?;
    shapes.push(Shape::noted(alloc, Ink::Shade(k), Form::Block(band), "")?)?;
    shapes.push(Shape::line(alloc, Ink::Lane, below, end)?)
}

// Appends a box with its lines.
fn add_card(
    alloc: Global,
    shapes: &mut Series<Shape>,
    grid: &Grid,
    k: u64,
    card: &Card,
) -> Result<(), Memory>
    requires small { IsSmall grid.now }
    requires rows { k ≤ 2 ^ 40 }
    ensures { OnOk result (shapes.new ≡ shapes.old ++ card_shapes grid.now k card.now) }
{
    let x = grid.column_x(k) + 8;
    add_frame(alloc, shapes, grid, k, card)?;
    add_line(alloc, shapes, x, BOX_TOP + 22, &card.name)?;
    add_line(alloc, shapes, x, BOX_TOP + 40, &card.program)?;
    add_line(alloc, shapes, x, BOX_TOP + 58, &card.rank)
}

/// Appends each box.
pub fn add_cards(
    alloc: Global,
    shapes: &mut Series<Shape>,
    grid: &Grid,
    cards: &[Card],
) -> Result<(), Memory>
    requires small { IsSmall grid.now }
    requires rows { length cards.now ≤ 2 ^ 40 }
    ensures { OnOk result (shapes.new ≡ shapes.old
        ++ draw_each (card_shapes grid.now) 0 cards.now) }
{
    for k in 0..cards.len() {
        add_card(alloc, shapes, grid, k as u64, &cards[k])?;
    }
    Ok(())
}
