//! An actor over rings, in place of lists: the driver, whose other ends are worked by hand. It
//! stands in a module of its own, since no actor names a ring.

mod driver;
mod tests;

pub use driver::{drive, seated_driver};
