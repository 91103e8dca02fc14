//! Laws of the workload: the full example is a valid plan, and no line of a generated trace is bad
//! for it.

mod laws;

pub use laws::{example_law, trace_law};
