//! A journal whose calls, sides, answers and items are spelt out by hand.
use cargo_core::{BlkReq, BlkResp, BlkStatus, Code, Item, NetDesc, QueueKind, Series, Text, Word};
use region_layout::{Layout, QueueRow};
use report_text::write_journal;
use std::alloc::Global;
use std::test::Fail;
use wire_core::{ActorId, Answer, Entry, Event, Op, QueueId, Side};

// A layout of two actors with a queue between them.
fn one_queue(alloc: Global) -> Result<Layout, Fail> {
    let mut layout = Layout {
        bases: Series::new(alloc),
        queues: Series::new(alloc),
        pools: Series::new(alloc),
        actors: Series::new(alloc),
    };
    layout.actors.push(Text::new(alloc, "app0")?)?;
    layout.actors.push(Text::new(alloc, "@eth")?)?;
    layout.queues.push(QueueRow {
        name: Text::new(alloc, "net.0.tx.active")?,
        kind: QueueKind::Net,
        capacity: 8,
        producer: ActorId(0),
        consumer: ActorId(1),
        region: None,
        offset: 0,
    })?;
    Ok(layout)
}

fn entry(actor: u16, op: Op, answer: Answer, item: Option<Item>) -> Entry {
    Entry {
        actor: ActorId(actor),
        event: Event {
            queue: QueueId(0),
            op,
            answer,
            item,
        },
    }
}

// The text of a journal.
fn spelled(alloc: Global, layout: &Layout, journal: &[Entry]) -> Result<String, Fail> {
    Ok(write_journal(alloc, layout, journal)?)
}

#[test]
fn journal_spells_calls_sides_answers_and_items(rt: HostRuntime) -> Result<(), Fail> {
    let alloc = rt.alloc();
    let layout = one_queue(alloc)?;
    let desc = NetDesc {
        addr: 268435456,
        len: 1514,
    };
    let req = BlkReq {
        addr: 32768,
        block: 4294967295,
        id: 7,
        count: 8,
        code: Code::Barrier,
    };
    let resp = BlkResp {
        status: BlkStatus::Invalid,
        count: 0,
        id: 9,
    };
    let journal = [
        entry(0, Op::Room, Answer::Yes, None),
        entry(0, Op::Put, Answer::Done, Some(Item::Net(desc))),
        entry(1, Op::See, Answer::No, None),
        entry(1, Op::Take, Answer::Done, Some(Item::Byte(10))),
        entry(0, Op::Put, Answer::Done, Some(Item::Req(req))),
        entry(1, Op::Take, Answer::Done, Some(Item::Resp(resp))),
        entry(1, Op::Ask(Side::Forward), Answer::Done, None),
        entry(0, Op::Waive(Side::Backward), Answer::Done, None),
        entry(0, Op::Wanted(Side::Forward), Answer::Yes, None),
        entry(1, Op::Settle(Side::Backward), Answer::Done, None),
        entry(0, Op::Ring(Side::Forward), Answer::Done, None),
        entry(0, Op::Wake(Side::Backward), Answer::No, None),
        entry(0, Op::Store(Word::Head, 0), Answer::Done, None),
        entry(0, Op::Store(Word::Tail, 77), Answer::Done, None),
        entry(0, Op::Store(Word::Flag, 65536), Answer::Done, None),
        entry(0, Op::Store(Word::FlagBack, 1), Answer::Done, None),
        entry(1, Op::Store(Word::Pending, u64::MAX), Answer::Done, None),
        entry(1, Op::Store(Word::PendingBack, 2), Answer::Done, None),
    ];
    let text = spelled(alloc, &layout, &journal)?;
    assert_eq!(rt;
        text.as_str(),
        "app0 net.0.tx.active room yes\n\
         app0 net.0.tx.active put - 268435456 1514\n\
         @eth net.0.tx.active see no\n\
         @eth net.0.tx.active take - 0a\n\
         app0 net.0.tx.active put - 3 32768 4294967295 8 7\n\
         @eth net.0.tx.active take - 1 0 9\n\
         @eth net.0.tx.active ask -\n\
         app0 net.0.tx.active waive_back -\n\
         app0 net.0.tx.active wanted yes\n\
         @eth net.0.tx.active settle_back -\n\
         app0 net.0.tx.active ring -\n\
         app0 net.0.tx.active wake_back no\n\
         app0 net.0.tx.active store_head - 0\n\
         app0 net.0.tx.active store_tail - 77\n\
         app0 net.0.tx.active store_flag - 65536\n\
         app0 net.0.tx.active store_flag_back - 1\n\
         @eth net.0.tx.active store_pending - 18446744073709551615\n\
         @eth net.0.tx.active store_pending_back - 2\n"
    );
    Ok(())
}
