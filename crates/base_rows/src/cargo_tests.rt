//! Lists, texts, pages and ranges give back what was put into them, and a buffer what it is filled
//! with.
use buffer_kit::{fill, frame};
use cargo_core::{
    Body, Bytes, FrameLog, FrameTape, Item, Lent, NetDesc, Page, PoolId, Ranges, Series, Tape, Text,
};
use std::test::Fail;

#[test]
fn lists_keep_what_is_put_into_them(rt: HostRuntime) -> Result<(), Fail> {
    let mut bytes = Bytes::from_slice(rt.alloc(), b"ab")?;
    bytes.push(99)?;
    bytes.extend_from_slice(b"de")?;
    assert_eq!(rt; bytes.as_slice(), b"abcde".as_slice());
    let mut frames = FrameLog::new(rt.alloc());
    frames.push(b"frame")?;
    assert_eq!(rt; frames.len(), 1);
    assert_eq!(rt; frames.get(0), b"frame".as_slice());
    let mut series = Series::new(rt.alloc());
    series.push(7u8)?;
    assert_eq!(rt; series.as_slice(), [7].as_slice());
    Ok(())
}

#[test]
fn tapes_and_texts_keep_what_is_put_into_them(rt: HostRuntime) -> Result<(), Fail> {
    let mut tape = Tape::new(rt.alloc());
    tape.reserve()?;
    tape.push(97);
    assert_eq!(rt; tape.as_slice(), b"a".as_slice());
    let text = Text::new(rt.alloc(), "uart")?;
    assert_eq!(rt; text.as_str(), "uart");
    Ok(())
}

#[test]
fn frames_are_recorded_into_memory_taken_before(rt: HostRuntime) -> Result<(), Fail> {
    let mut tape = FrameTape::new(rt.alloc());
    tape.reserve(5)?;
    tape.push(b"first");
    tape.reserve(6)?;
    tape.push(b"second");
    assert_eq!(rt; tape.frames().get(0), b"first".as_slice());
    assert_eq!(rt; tape.frames().get(1), b"second".as_slice());
    Ok(())
}

#[test]
fn a_lease_reads_what_was_put_into_a_page(rt: HostRuntime) -> Result<(), Fail> {
    let mut page = Page::new(rt.alloc(), PoolId(1), 2, 4)?;
    page.fill(1, b"ab");
    let lease = page.lease(3)?.again()?;
    assert_eq!(rt; lease.bytes(), [0, 97, 98].as_slice());
    let mut lent = Lent::new(rt.alloc(), 3)?;
    lent.lend(page, 1);
    assert_eq!(rt; lent.count(2), 1);
    assert_eq!(rt; lent.page(2).no(), 2);
    Ok(())
}

#[test]
fn an_address_tells_its_client(rt: HostRuntime) -> Result<(), Fail> {
    let mut ranges = Ranges::new(rt.alloc());
    ranges.add(0x1000, 0x800)?;
    assert_eq!(rt; ranges.client_of(0x17ff), Some(0));
    assert_eq!(rt; ranges.client_of(0x1800), None);
    assert_eq!(rt; ranges.offset_of(0, 0x17ff), 0x7ff);
    Ok(())
}

#[test]
fn a_filled_buffer_has_the_frame_and_its_length(rt: HostRuntime) -> Result<(), Fail> {
    let page = Page::new(rt.alloc(), PoolId(0), 3, 20)?;
    let item = Item::Net(NetDesc { addr: 60, len: 0 });
    let entry = fill((item, Body::Page(page)), b"fourteen bytes");
    assert_eq!(rt; entry.0, Item::Net(NetDesc { addr: 60, len: 14 }));
    assert_eq!(rt; frame(&entry), b"fourteen bytes".as_slice());
    Ok(())
}

#[test]
fn a_page_that_is_too_short_stays(rt: HostRuntime) -> Result<(), Fail> {
    let page = Page::new(rt.alloc(), PoolId(0), 0, 4)?;
    let item = Item::Net(NetDesc { addr: 0, len: 0 });
    let entry = fill((item, Body::Page(page)), b"fourteen bytes");
    assert_eq!(rt; entry.0, Item::Net(NetDesc { addr: 0, len: 14 }));
    assert_eq!(rt; frame(&entry), [0, 0, 0, 0].as_slice());
    Ok(())
}
