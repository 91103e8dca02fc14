//! What is drawn of a play.
ghost use Rattle.std.specs.Prelude.{◌≡◌, ◌≤◌, ◌<◌, ◌^◌, length, IfOk};
ghost use Rattle.sdf_plan.specs.Elements.{IsNumbered};
ghost use Rattle.sdf_check.specs.Valid.{Valid};
ghost use Rattle.region_layout.specs.Layouts.{layout_of};
ghost use Rattle.view_plays.specs.PlayView.Drawn.{last_of, first_of, steps_of, counts_of, chart_of};
ghost use Rattle.view_plays.specs.PlayView.Drawn.{parts_of, drawn_text, is_counted};

use crate::play_view::page_text::{Part, write_page};
use cargo_core::{Bytes, Memory, Text};
use command_words::play_words::{Drawing, Name, Setting, number_of};
use expect_core::Report;
use layout_laws::seats::seat_law;
use picture_kit::{Picture, write_svg};
use pictures::layout_view::picture;
use pictures::layout_view::picture_style::{PAGE_END, PAGE_FRONT, PICTURE_STYLE};
use pictures::play_picture::fill_picture::fill_picture;
use pictures::play_picture::pool_picture::pool_picture;
use pictures::play_picture::{Cast, play_picture};
use region_layout::Layout;
use report_text::write_report;
use sdf_plan::Plan;
use std::alloc::Global;
use wire_core::Entry;

/// How many steps are drawn where no end is named.
const STEPS: u64 = 2000;

/// The most steps that a chart goes up to.
const MOST: usize = 4_294_967_295;

// Up to which of so many steps is drawn.
#[tactic(auto, unfolding(crate::specs::PlayView::Drawn::last_of))]
fn last_of(settings: &[Setting], steps: usize) -> usize
    ensures place { result ≡ last_of settings.now steps }
    ensures within { result ≤ steps }
    ensures few { result < 2 ^ 32 }
{
    let from = number_of(settings, Name::From).unwrap_or(0);
    let to = number_of(settings, Name::To).unwrap_or(from.saturating_add(STEPS));
    (to as usize).min(steps.min(MOST))
}

// From which step on.
#[tactic(auto, unfolding(crate::specs::PlayView::Drawn::first_of))]
fn first_of(settings: &[Setting], steps: usize) -> usize
    ensures place { result ≡ first_of settings.now steps }
    ensures within { result ≤ last_of settings.now steps }
{
    let from = number_of(settings, Name::From).unwrap_or(0);
    (from as usize).min(last_of(settings, steps))
}

// Whether it is asked for how full the queues are.
fn is_counted(settings: &[Setting]) -> bool
    ensures { result ≡ is_counted settings.now }
{
    number_of(settings, Name::Counts).is_some()
}

// The chart of the steps of a journal that are drawn.
fn steps_of(
    alloc: Global,
    layout: &Layout,
    journal: &[Entry],
    settings: &[Setting],
) -> Result<Picture, Memory>
    requires { length layout.now.actors ≤ 65536 }
    ensures { IfOk result (λ picture. picture ≡ steps_of layout.now journal.now settings.now) }
{
    let to = last_of(settings, journal.len());
    let from = first_of(settings, journal.len());
    let cast = Cast {
        queues: layout.queues(),
        actors: layout.actors(),
    };
    play_picture(alloc, &cast, &journal[..to], from, journal.len())
}

// How full the queues are over them.
fn counts_of(
    alloc: Global,
    layout: &Layout,
    journal: &[Entry],
    settings: &[Setting],
) -> Result<Picture, Memory>
    requires { length layout.now.queues ≤ 65536 }
    ensures { IfOk result (λ picture. picture ≡ counts_of layout.now journal.now settings.now) }
{
    let to = last_of(settings, journal.len());
    let from = first_of(settings, journal.len());
    fill_picture(alloc, layout.queues(), &journal[..to], from, journal.len())
}

// The picture that is asked for alone.
fn chart_of(
    alloc: Global,
    layout: &Layout,
    journal: &[Entry],
    settings: &[Setting],
) -> Result<Picture, Memory>
    requires actors { length layout.now.actors ≤ 65536 }
    requires queues { length layout.now.queues ≤ 65536 }
    ensures { IfOk result (λ picture. picture ≡ chart_of layout.now journal.now settings.now) }
{
    if is_counted(settings) {
        counts_of(alloc, layout, journal, settings)
    } else {
        steps_of(alloc, layout, journal, settings)
    }
}

// A picture under a heading.
fn part(alloc: Global, heading: &str, picture: Picture) -> Result<Part, Memory>
    ensures { IfOk result (λ part. part ≡ record { heading = heading.now; picture = picture }) }
{
    let heading = Text::new(alloc, heading)?;
    Ok(Part { heading, picture })
}

// The pictures of a page.
fn parts_of(
    alloc: Global,
    plan: &Plan,
    layout: &Layout,
    journal: &[Entry],
    report: &Report,
    settings: &[Setting],
) -> Result<Vec<Part>, Memory>
    requires valid { Valid plan.now }
    requires numbered { IsNumbered plan.now }
    requires layout { layout.now ≡ layout_of plan.now }
    requires pools { length report.now.pools ≤ 2 ^ 40 }
    requires actors { length layout.now.actors ≤ 65536 }
    requires queues { length layout.now.queues ≤ 65536 }
    ensures { IfOk result (λ parts. parts.items
        ≡ parts_of plan.now layout.now journal.now report.now settings.now) }
{
    let layout_part = part(alloc, "Layout", picture(alloc, plan, layout)?)?;
    let steps_part = part(alloc, "Steps", steps_of(alloc, layout, journal, settings)?)?;
    let pools_part = part(
        alloc,
        "Buffers",
        pool_picture(alloc, report.pools.as_slice())?,
    )?;
    let mut parts = Vec::new(alloc);
    parts.push(layout_part)?;
    parts.push(steps_part)?;
    if is_counted(settings) {
        let counts = counts_of(alloc, layout, journal, settings)?;
        parts.push(part(alloc, "Queues", counts)?)?;
    }
    parts.push(pools_part)?;
    Ok(parts)
}

/// What is drawn of a play, as a text: a picture, or a page. The only error is want of memory.
#[tactic(auto, unfolding(crate::specs::PlayView::Drawn::drawn_text))]
pub fn draw_play(
    alloc: Global,
    plan: &Plan,
    layout: &Layout,
    journal: &[Entry],
    report: &Report,
    drawing: &Drawing,
) -> Result<Bytes, Memory>
    requires valid { Valid plan.now }
    requires numbered { IsNumbered plan.now }
    requires layout { layout.now ≡ layout_of plan.now }
    requires pools { length report.now.pools ≤ 2 ^ 40 }
    ensures { IfOk result (λ text. text
        ≡ drawn_text plan.now layout.now journal.now report.now drawing.now) }
{
    seat_law();
    let settings = drawing.settings.as_slice();
    if !drawing.page {
        let chart = chart_of(alloc, layout, journal, settings)?;
        return write_svg(alloc, PICTURE_STYLE, &chart);
    }
    let parts = parts_of(alloc, plan, layout, journal, report, settings)?;
    let text = write_report(alloc, report)?;
    write_page(
        alloc,
        PAGE_FRONT,
        PICTURE_STYLE,
        &parts,
        text.as_str(),
        PAGE_END,
    )
}
