//! What the header of a frame says: whether bytes can be a frame, for whom it is, and the frame
//! that answers it. The network's actors rest on these functions.

ghost use Rattle.std.specs.Prelude.{◌≡◌, ◌≤◌, length, take};
ghost use Rattle.frame_core.specs.Frames.{is_frame_of, is_frame_for, turned_round};

use crate::Mac;

/// The shortest frame, in bytes: its header.
const SHORTEST: usize = 14;

/// Whether these bytes can be a frame, where the longest has `most`: their number alone decides.
pub fn is_frame(bytes: &[u8], most: u16) -> bool
    ensures { result ≡ is_frame_of bytes.now most }
{
    SHORTEST <= bytes.len() && bytes.len() <= most as usize
}

/// The station to which a frame goes: its first six bytes.
pub fn destination(frame: &[u8]) -> Mac
    requires { 14 ≤ length frame.now }
    ensures { result.0 ≡ take 6 frame.now }
{
    Mac([frame[0], frame[1], frame[2], frame[3], frame[4], frame[5]])
}

/// Whether a frame is for the station of an address: its destination is that address, or that of
/// all stations.
pub fn is_for(frame: &[u8], own: Mac) -> bool
    requires { 14 ≤ length frame.now }
    ensures { result ≡ is_frame_for frame.now own }
{
    frame.starts_with(&own.0) || frame.starts_with(&[0xff; 6])
}

/// Makes a frame the answer to itself: it goes to the station from which it came, and comes from
/// `own`.
pub fn turn_round(frame: &mut [u8], own: Mac)
    requires { 14 ≤ length frame.old }
    ensures { frame.new ≡ turned_round frame.old own }
{
    let source = [frame[6], frame[7], frame[8], frame[9], frame[10], frame[11]];
    frame[..6].copy_from_slice(&source);
    frame[6..12].copy_from_slice(&own.0);
}
