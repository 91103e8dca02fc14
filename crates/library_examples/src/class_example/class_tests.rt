//! Two sources and a joiner, played by several seeds.
use crate::class_example::{Member, play_pair};
use cargo_core::Bytes;
use std::test::Fail;

#[test]
fn the_joiner_records_one_script_whole(rt: HostRuntime) -> Result<(), Fail> {
    for seed in 0..8 {
        let one = Bytes::from_slice(rt.alloc(), b"abc")?;
        let other = Bytes::from_slice(rt.alloc(), b"xyz")?;
        let (small, quiet) = play_pair(rt.alloc(), one, other, seed, 1_000)?;
        assert!(rt; quiet);
        let got = match small.actors().get(2) {
            Some(Member::Joiner(joiner)) => joiner.got(),
            _ => b"".as_slice(),
        };
        assert!(rt; got == b"abc".as_slice() || got == b"xyz".as_slice());
    }
    Ok(())
}

#[test]
fn a_play_makes_no_more_steps_than_its_limit(rt: HostRuntime) -> Result<(), Fail> {
    let one = Bytes::from_slice(rt.alloc(), b"abc")?;
    let other = Bytes::new(rt.alloc());
    let (mut small, quiet) = play_pair(rt.alloc(), one, other, 5, 3)?;
    assert!(rt; !quiet);
    assert_eq!(rt; small.journal().len(), 3);
    assert!(rt; small.play(6, 1_000)?);
    let steps = small.journal().len();
    assert!(rt; small.play(7, 1_000)?);
    assert_eq!(rt; small.journal().len(), steps);
    Ok(())
}
