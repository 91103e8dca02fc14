//! Serial input is switched between clients by selections that stand in it. Byte 28 opens a
//! selection, up to four decimal digits name a client, and byte 13 ends it; byte 28 twice stands
//! for one byte 28. The two bytes and the number of digits are this project's own values.

mod grammar;
mod plain;
mod switch;

pub use grammar::the_grammar;
pub use plain::plain_input_of;
pub use switch::Switch;
