//! What holds of each trace that was read, for those who play it and needn't know the lines.
ghost use Rattle.trace_text.specs.Shapes.{HasShapes};
ghost use Rattle.trace_text.specs.Traces.{IsReadFor, KeepsLimits};

use crate::Trace;
use sdf_plan::Plan;

/// A trace that was read for a plan has a list for each client of each class, and keeps the limits:
/// 1,024 frames that are received or sent, 81,920 bytes of input and of what is said, 1,024
/// requests, 1,024 acts of hostile clients.
pub fn limits_law()
    ensures { (plan : Plan) (trace : Trace) → IsReadFor plan trace → KeepsLimits plan trace }
{}

/// The frames of a trace that was read, received and sent, have 14 to 1,514 bytes; its disk has 1
/// to 8,192 blocks of 4,096 bytes where the plan has a block class, and no byte else; and its
/// requests are such as a line gives: a read or a write names 1 to 8 blocks, and a write has 4,096
/// bytes for each, where the others have none; a flush or a barrier names no block. An act of a
/// hostile client takes from one of its inputs, puts into one of its outputs, or stores in a word
/// of either.
pub fn shapes_law()
    ensures { (plan : Plan) (trace : Trace) → IsReadFor plan trace → HasShapes plan trace }
{}
