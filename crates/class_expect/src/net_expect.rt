//! Which frames of a device a network client must get, and how an echo answers them. A frame
//! without a whole header is for nobody; that a client gets the frames to its address and to all
//! stations is sDDF's.

ghost use Rattle.std.specs.Prelude.{◌≡◌, [], ◌∷◌, ◌++◌, IfOk, OnOk};
ghost use Rattle.class_expect.specs.NetExpect.Expecting.{is_for_client, frames_for, answers_for};

use cargo_core::{FrameLog, Memory};
use frame_core::{Mac, is_for, turn_round};
use std::alloc::Global;

/// The length of a frame's header, in bytes.
const HEADER: usize = 14;

/// Whether a frame is for the client of an address. One that is shorter than a header is for none.
pub fn is_for_client(frame: &[u8], mac: Mac) -> bool
    ensures { result ≡ is_for_client mac frame.now }
{
    frame.len() >= HEADER && is_for(frame, mac)
}

// Appends a frame, where it is for the client of an address.
#[tactic(auto, using(crate::proofs::NetExpect::Choosing::kept, crate::proofs::NetExpect::Choosing::left))]
fn append_if_for(log: &mut FrameLog, frame: &[u8], mac: Mac) -> Result<(), Memory>
    ensures { OnOk result (log.new ≡ log.old ++ frames_for mac (frame.now ∷ [])) }
{
    if is_for_client(frame, mac) {
        log.push(frame)?;
    }
    Ok(())
}

/// The frames that the client of an address must get, of those that the device receives.
pub fn frames_for(alloc: Global, frames: &FrameLog, mac: Mac) -> Result<FrameLog, Memory>
    ensures { IfOk result (λ log. log ≡ frames_for mac frames.now) }
{
    let mut log = FrameLog::new(alloc);
    for at in 0..frames.len() {
        append_if_for(&mut log, frames.get(at), mac)?;
    }
    Ok(log)
}

// Appends the answer to a frame, where that is for the client of an address.
#[tactic(auto, using(crate::proofs::NetExpect::Choosing::kept, crate::proofs::NetExpect::Choosing::left))]
fn append_answer(alloc: Global, log: &mut FrameLog, frame: &[u8], mac: Mac) -> Result<(), Memory>
    ensures { OnOk result (log.new ≡ log.old ++ answers_for mac (frame.now ∷ [])) }
{
    if !is_for_client(frame, mac) {
        return Ok(());
    }
    let mut answer = frame.to_vec(alloc)?;
    turn_round(&mut answer, mac);
    log.push(&answer)
}

/// The frames by which an echo of an address answers those that it must get, of those that the
/// device receives.
pub fn answers_for(alloc: Global, frames: &FrameLog, mac: Mac) -> Result<FrameLog, Memory>
    ensures { IfOk result (λ log. log ≡ answers_for mac frames.now) }
{
    let mut log = FrameLog::new(alloc);
    for at in 0..frames.len() {
        append_answer(alloc, &mut log, frames.get(at), mac)?;
    }
    Ok(log)
}
