//! How an echo's answer to a frame is written into a buffer.
ghost use Rattle.std.specs.Prelude.{◌≡◌, ◌≤◌, ◌<◌, ◌^◌, length};
ghost use Rattle.cargo_core.specs.declared.item.Body.{Body};
ghost use Rattle.frame_core.specs.Frames.{turned_round};
ghost use Rattle.buffer_kit.specs.Entries.{filled, filled_body};
ghost use Rattle.client_programs.specs.Net.Programs.{answer_to};

use buffer_kit::fill;
use cargo_core::{Body, Item};
use frame_core::Mac;

/// The length of a frame's header, in bytes.
const HEADER: usize = 14;

// Makes a frame the answer to itself, where it stands at the front of a page.
fn turn_body(body: Body, frame: &[u8], mac: Mac) -> Body
    requires { 14 ≤ length frame.now }
    ensures { (before : Body) → body ≡ filled_body frame.now before
        → result ≡ filled_body (turned_round frame.now mac) before }
{
    match body {
        Body::Page(mut page) => {
            if frame.len() <= page.bytes().len() {
                page.fill(0, &frame[6..12]);
                page.fill(6, &mac.0);
            }
            Body::Page(page)
        }
        other => other,
    }
}

/// Fills an entry with an echo's answer to a frame.
pub fn fill_answer(entry: (Item, Body), frame: &[u8], mac: Mac) -> (Item, Body)
    requires { length frame.now < 2 ^ 16 }
    ensures { result ≡ filled (answer_to mac frame.now) entry }
{
    let (item, body) = fill(entry, frame);
    if frame.len() < HEADER {
        return (item, body);
    }
    (item, turn_body(body, frame, mac))
}
