//! What clients must get of given frames and input.
use cargo_core::{Bytes, FrameLog, Series};
use class_expect::net_expect::{answers_for, frames_for};
use expect_core::input_of;
use frame_core::Mac;
use std::alloc::Global;
use std::test::Fail;
use trace_text::Trace;

// The frames of these that are for a station.
fn own_of(alloc: Global, frames: &FrameLog, mac: Mac) -> Result<FrameLog, Fail> {
    Ok(frames_for(alloc, frames, mac)?)
}

// What a station answers to these.
fn answers_of(alloc: Global, frames: &FrameLog, mac: Mac) -> Result<FrameLog, Fail> {
    Ok(answers_for(alloc, frames, mac)?)
}

// Three frames, for a station, for another and for all, and one that is too short.
fn four_frames(alloc: Global) -> Result<FrameLog, Fail> {
    let mut frames = FrameLog::new(alloc);
    frames.push(&[2, 0, 0, 0, 0, 1, 2, 0, 0, 0, 0, 9, 8, 0])?;
    frames.push(&[2, 0, 0, 0, 0, 2, 2, 0, 0, 0, 0, 9, 8, 0])?;
    frames.push(&[255, 255, 255, 255, 255, 255, 2, 0, 0, 0, 0, 9, 8, 0])?;
    frames.push(&[2, 0, 0, 0, 0, 1])?;
    Ok(frames)
}

// What the second of two clients gets of the input of a trace.
fn second_input_of(alloc: Global, trace: &Trace) -> Result<Bytes, Fail> {
    Ok(input_of(alloc, trace, 2, 1)?)
}

// Whether a list has this frame in a place.
fn has_at(log: &FrameLog, at: usize, frame: &[u8]) -> bool {
    at < log.len() && log.get(at) == frame
}

#[test]
fn a_client_gets_its_own_frames_and_those_to_all(rt: HostRuntime) -> Result<(), Fail> {
    let frames = four_frames(rt.alloc())?;
    let log = own_of(rt.alloc(), &frames, Mac([2, 0, 0, 0, 0, 1]))?;
    let own = [2, 0, 0, 0, 0, 1, 2, 0, 0, 0, 0, 9, 8, 0];
    let to_all = [255, 255, 255, 255, 255, 255, 2, 0, 0, 0, 0, 9, 8, 0];
    assert_eq!(rt; log.len(), 2);
    assert!(rt; has_at(&log, 0, &own) && has_at(&log, 1, &to_all));
    Ok(())
}

#[test]
fn a_client_answers_its_own_frames_and_those_to_all(rt: HostRuntime) -> Result<(), Fail> {
    let frames = four_frames(rt.alloc())?;
    let answers = answers_of(rt.alloc(), &frames, Mac([2, 0, 0, 0, 0, 2]))?;
    let answer = [2, 0, 0, 0, 0, 9, 2, 0, 0, 0, 0, 2, 8, 0];
    assert_eq!(rt; answers.len(), 2);
    assert!(rt; has_at(&answers, 0, &answer) && has_at(&answers, 1, &answer));
    Ok(())
}

// A trace with this input alone.
fn trace_of(alloc: Global, input: &[u8]) -> Result<Trace, Fail> {
    Ok(Trace {
        frames: FrameLog::new(alloc),
        input: Bytes::from_slice(alloc, input)?,
        sends: Series::new(alloc),
        says: Series::new(alloc),
        asks: Series::new(alloc),
        image: Bytes::new(alloc),
        net_acts: Series::new(alloc),
        serial_acts: Series::new(alloc),
        blk_acts: Series::new(alloc),
    })
}

#[test]
fn input_is_switched_by_selections(rt: HostRuntime) -> Result<(), Fail> {
    let alloc = rt.alloc();
    let trace = trace_of(alloc, b"\x1c1\rh\x1c\x1c\x1c9\ri")?;
    assert_eq!(rt;
        second_input_of(alloc, &trace)?.as_slice(),
        b"h\x1ci".as_slice()
    );
    Ok(())
}
