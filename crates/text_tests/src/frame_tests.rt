//! Frames and the addresses of stations, beside values that were written down by hand.
use frame_core::{Mac, destination, is_for, is_frame, read_mac, turn_round};

const OWN: Mac = Mac([2, 0, 0, 0, 0, 1]);

// Whether bytes are a frame where one has at most 1,514.
fn are_frame(bytes: &[u8]) -> bool {
    is_frame(bytes, 1514)
}

// The address that a text spells.
fn mac_of(text: &str) -> Option<Mac> {
    read_mac(text)
}

#[test]
fn frames_have_14_to_1514_bytes(rt: HostRuntime) {
    assert!(rt; !are_frame(&[0; 13]));
    assert!(rt; are_frame(&[0; 14]));
    assert!(rt; are_frame(&[0; 1514]));
    assert!(rt; !are_frame(&[0; 1515]));
}

#[test]
fn an_answer_goes_back_to_the_source(rt: HostRuntime) {
    let mut frame = [2, 0, 0, 0, 0, 1, 2, 0, 0, 0, 0, 0x99, 8, 0, 7];
    assert!(rt; is_for(&frame, OWN));
    assert_eq!(rt; destination(&frame), OWN);
    turn_round(&mut frame, OWN);
    assert_eq!(rt; &frame, &[2, 0, 0, 0, 0, 0x99, 2, 0, 0, 0, 0, 1, 8, 0, 7]);
    assert!(rt; !is_for(&frame, OWN));
    assert!(rt; is_for(&[0xff; 14], OWN));
}

#[test]
fn reads_six_pairs_of_either_case(rt: HostRuntime) {
    assert_eq!(rt;
        mac_of("02:00:00:00:00:aF"),
        Some(Mac([2, 0, 0, 0, 0, 0xaf]))
    );
    assert_eq!(rt;
        mac_of("Fe:DC:ba:98:76:54"),
        Some(Mac([0xfe, 0xdc, 0xba, 0x98, 0x76, 0x54]))
    );
}

#[test]
fn refuses_another_form_and_a_group(rt: HostRuntime) {
    for text in [
        "",
        "02:00:00:00:00",
        "02:00:00:00:00:0",
        "02:00:00:00:00:01:",
        "02-00-00-00-00-01",
        "02:00:00:00:00:0g",
        "ff:ff:ff:ff:ff:ff",
        "01:00:5e:00:00:01",
    ] {
        assert_eq!(rt; mac_of(text), None);
    }
}
