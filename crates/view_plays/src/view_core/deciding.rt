//! What the words and the description decide, one function for each stage.
ghost use Rattle.std.specs.Prelude.{◌≡◌, IfOk, ℕ, List};
ghost use Rattle.sdf_plan.specs.declared.place.Refusal.{Refusal};
ghost use Rattle.command_words.specs.Words.{texts_of};
ghost use Rattle.decision_core.specs.ShelfCore.Reading.{WasRead};
ghost use Rattle.decision_core.specs.ShelfCore.Shelves.{ReadsFrom, Opens};
ghost use Rattle.view_plays.specs.ViewCore.Deciding.{Refuse, decision_of, TextShows, Decides};
ghost use Rattle.view_plays.specs.ViewCore.Lines.{refused_line, long_line, usage_line};
ghost use Rattle.view_plays.specs.ViewCore.Opening.{OpensFor, LeavesAny};

use crate::view_core::answer::Answer;
use crate::view_core::ask::{View, name_of, read_words};
use crate::view_core::drawing::draw;
use crate::view_core::ended::Ended;
use crate::view_core::line::{write_refused, write_too_long, write_usage};
use cargo_core::Memory;
use decision_core::judge;
use sdf_model::TEXT_MOST;
use sdf_plan::SdfFault;
use decision_core::shelf_core::{ReadStop, Shelf, read_text};
use std::alloc::Global;

// A description isn't accepted.
fn refuse(alloc: Global, fault: SdfFault) -> Result<Answer, Memory>
    ensures { IfOk result (λ answer. (refusal : Refusal) × (fault ≡ SdfFault.Refused refusal)
        × (decision_of answer
        ≡ Refuse (Ended.Refused refusal.rule) (refused_line refusal))) }
{
    match fault {
        SdfFault::Refused(refusal) => {
            let line = write_refused(alloc, &refusal)?;
            Ok(Answer::Refuse(Ended::Refused(refusal.rule), line))
        }
        SdfFault::Memory(memory) => Err(memory),
    }
}

// A description is too long.
fn refuse_long(alloc: Global) -> Result<Answer, Memory>
    ensures { IfOk result (λ answer. decision_of answer ≡ Refuse Ended.TooLong long_line) }
{
    let line = write_too_long(alloc)?;
    Ok(Answer::Refuse(Ended::TooLong, line))
}

// The words ask for nothing.
fn refuse_words(alloc: Global, k: u32) -> Result<Answer, Memory>
    ensures { IfOk result (λ answer. decision_of answer
        ≡ Refuse (Ended.Usage k) (usage_line k)) }
{
    let line = write_usage(alloc, k)?;
    Ok(Answer::Refuse(Ended::Usage(k), line))
}

// What is decided for the bytes of a description.
fn decide_text(alloc: Global, view: View, text: &[u8]) -> Result<Answer, Memory>
    ensures { IfOk result (λ answer. TextShows view text.now (decision_of answer)) }
{
    if text.len() > TEXT_MOST {
        return refuse_long(alloc);
    }
    match judge(alloc, text) {
        Ok(plan) => draw(alloc, view, &plan),
        Err(fault) => refuse(alloc, fault),
    }
}

// What is decided for the description of a name.
fn decide_named<F: Shelf>(
    alloc: Global,
    view: View,
    name: &str,
    shelf: &mut F,
) -> Result<Answer, ReadStop>
    ensures decides { IfOk result (λ answer. (bytes : List ℕ)
        × WasRead (F.text shelf.old) name.now bytes × TextShows view bytes (decision_of answer)) }
    ensures reads { ReadsFrom F.text F.left F.opens F.faults F.failed (Opens name.now) LeavesAny
        shelf.old shelf.new result }
{
    let text = read_text(alloc, shelf, name)?;
    Ok(decide_text(alloc, view, text.as_slice())?)
}

/// What the words decide. The whole text is made before any of it is written.
pub fn decide_view<F: Shelf>(
    alloc: Global,
    words: &[String],
    shelf: &mut F,
) -> Result<Answer, ReadStop>
    ensures decides { IfOk result (λ answer. Decides (WasRead (F.text shelf.old))
        (texts_of words.now) (decision_of answer)) }
    ensures reads { ReadsFrom F.text F.left F.opens F.faults F.failed
        (OpensFor (texts_of words.now)) LeavesAny shelf.old shelf.new result }
{
    match read_words(words) {
        Ok(view) => decide_named(alloc, view, name_of(words), shelf),
        Err(k) => Ok(refuse_words(alloc, k)?),
    }
}
