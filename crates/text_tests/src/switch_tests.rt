//! The switch and the plain program on the same inputs.

use cargo_core::{Bytes, Memory};
use class_expect::serial_switch::{Switch, plain_input_of};
use std::alloc::Global;

// What a client of two gets by the switch.
fn switched(alloc: Global, input: &[u8], client: u32) -> Result<Bytes, Memory> {
    let mut switch = Switch::new(2);
    let mut given = Bytes::new(alloc);
    for byte in input {
        if let Some((to, byte)) = switch.step(*byte)
            && to == client
        {
            given.push(byte)?;
        }
    }
    Ok(given)
}

// What it gets by the slow program.
fn by_pieces(alloc: Global, input: &[u8], client: u32) -> Result<Bytes, Memory> {
    Ok(plain_input_of(alloc, input, 2, client)?)
}

// Whether both give a client the same.
fn agree(alloc: Global, input: &[u8], client: u32) -> Result<bool, Memory> {
    let by_switch = switched(alloc, input, client)?;
    let by_pieces = by_pieces(alloc, input, client)?;
    Ok(by_switch.as_slice() == by_pieces.as_slice())
}

// Whether both give a client this.
fn gives(alloc: Global, input: &[u8], client: u32, want: &[u8]) -> Result<bool, Memory> {
    let by_switch = switched(alloc, input, client)?;
    let by_pieces = by_pieces(alloc, input, client)?;
    Ok(by_switch.as_slice() == want && by_pieces.as_slice() == want)
}

#[test]
fn selections_switch_and_drop(rt: HostRuntime) -> Result<(), Memory> {
    let alloc = rt.alloc();
    let input = b"\x1c1\rh\x1c\x1c\x1c9\ri";
    assert!(rt; gives(alloc, input, 1, b"h\x1ci")?);
    assert!(rt; gives(alloc, input, 0, b"")?);
    assert!(rt; gives(alloc, b"o\x1c1", 0, b"o")?);
    assert!(rt; gives(alloc, b"\x1c\rb", 0, b"b")?);
    assert!(rt; gives(alloc, b"\x1c00011\rb", 0, b"\rb")?);
    assert!(rt; gives(alloc, b"\x1c0001\rb", 1, b"b")?);
    assert!(rt; gives(alloc, b"\x1c1x\x1c1\x1cy", 0, b"y")?);
    Ok(())
}

#[test]
fn short_inputs_are_read_as_the_slow_program_reads_them(rt: HostRuntime) -> Result<(), Memory> {
    let alloc = rt.alloc();
    let letters = [28, 13, b'0', b'1', b'9', b'h'];
    for first in letters {
        for second in letters {
            for third in letters {
                let whole = [first, second, third];
                for length in 0..4 {
                    let input = &whole[..length];
                    for client in 0..2 {
                        assert!(rt; agree(alloc, input, client)?);
                    }
                }
            }
        }
    }
    Ok(())
}
