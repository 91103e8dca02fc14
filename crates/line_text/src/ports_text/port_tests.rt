//! Texts of ports, good and bad.

use crate::ports_text::{PortFault, read_ports};
use cargo_core::Memory;
use std::alloc::Global;
use std::test::Fail;

// The first bad line of a text; 0 where no line is bad.
fn bad_line(alloc: Global, text: &str) -> Result<u64, Memory> {
    match read_ports(alloc, text.as_bytes()) {
        Ok(_ports) => Ok(0),
        Err(PortFault::BadLine(line)) => Ok(line),
        Err(PortFault::Memory(memory)) => Err(memory),
    }
}

// The first bad line of two ports and these lines.
fn bad_after_two(alloc: Global, lines: &str) -> Result<u64, Memory> {
    let mut text = String::new(alloc);
    text.push_str("port 02:00:00:00:00:01\nport 02:00:00:00:00:02\n")?;
    text.push_str(lines)?;
    bad_line(alloc, &text)
}

#[test]
fn lines_give_ports_and_their_frames_in_order(rt: HostRuntime) -> Result<(), Fail> {
    let text = "# two\nport 02:00:00:00:00:01\n\nport 02:00:00:00:00:0A\n\
        send 1 6*ff,02000000000a0800\nsend 1 0200000000010200000000010800";
    let ports = read_ports(rt.alloc(), text.as_bytes())?;
    assert_eq!(rt; ports.macs.len(), 2);
    assert_eq!(rt; ports.macs.as_slice()[1].0, [2, 0, 0, 0, 0, 10]);
    assert_eq!(rt; ports.sends.len(), 2);
    assert!(rt; ports.sends.as_slice()[0].is_empty());
    let frames = &ports.sends.as_slice()[1];
    assert_eq!(rt; frames.len(), 2);
    assert!(rt;
        frames
            .get(0)
            .starts_with(&[0xff, 0xff, 0xff, 0xff, 0xff, 0xff, 2])
    );
    assert!(rt; frames.get(1).starts_with(&[2, 0, 0, 0, 0, 1, 2]));
    Ok(())
}

#[test]
fn the_first_bad_line_is_told(rt: HostRuntime) -> Result<(), Fail> {
    let alloc = rt.alloc();
    assert_eq!(rt; bad_after_two(alloc, "# nothing\n\n")?, 0);
    // An address that is named before, that of a group, and one of five bytes.
    assert_eq!(rt; bad_after_two(alloc, "port 02:00:00:00:00:01\n")?, 3);
    assert_eq!(rt; bad_after_two(alloc, "port 03:00:00:00:00:03\n")?, 3);
    assert_eq!(rt; bad_after_two(alloc, "\nport 02:00:00:00:03\n")?, 4);
    // A port after a frame.
    assert_eq!(rt;
        bad_after_two(alloc, "send 0 14*00\nport 02:00:00:00:00:03\n")?,
        4
    );
    // A frame of no port, no number, and other words.
    assert_eq!(rt; bad_after_two(alloc, "send 2 14*00\n")?, 3);
    assert_eq!(rt; bad_after_two(alloc, "send 00 14*00\n")?, 3);
    assert_eq!(rt; bad_after_two(alloc, "send 0 14*00 \n")?, 3);
    assert_eq!(rt; bad_after_two(alloc, "say 0 14*00\n")?, 3);
    Ok(())
}

#[test]
fn a_frame_has_14_to_1514_bytes(rt: HostRuntime) -> Result<(), Fail> {
    assert_eq!(rt; bad_after_two(rt.alloc(), "send 0 13*00\n")?, 3);
    assert_eq!(rt;
        bad_after_two(rt.alloc(), "send 0 14*00\nsend 0 1514*00\n")?,
        0
    );
    assert_eq!(rt; bad_after_two(rt.alloc(), "send 0 1515*00\n")?, 3);
    Ok(())
}

#[test]
fn there_are_two_to_eight_ports(rt: HostRuntime) -> Result<(), Fail> {
    assert_eq!(rt; bad_line(rt.alloc(), "")?, 1);
    assert_eq!(rt; bad_line(rt.alloc(), "port 02:00:00:00:00:01\n\n")?, 3);
    let mut text = String::new(rt.alloc());
    for port in 0..8 {
        write!(text, "port 02:00:00:00:00:0{port}\n")?;
    }
    assert_eq!(rt; bad_line(rt.alloc(), &text)?, 0);
    text.push_str("port 02:00:00:00:00:08\n")?;
    assert_eq!(rt; bad_line(rt.alloc(), &text)?, 9);
    Ok(())
}

#[test]
fn at_most_1024_frames_are_sent(rt: HostRuntime) -> Result<(), Fail> {
    let mut lines = String::new(rt.alloc());
    for _frame in 0..1024 {
        lines.push_str("send 1 14*00\n")?;
    }
    assert_eq!(rt; bad_after_two(rt.alloc(), &lines)?, 0);
    lines.push_str("send 0 14*00\n")?;
    assert_eq!(rt; bad_after_two(rt.alloc(), &lines)?, 1027);
    Ok(())
}
