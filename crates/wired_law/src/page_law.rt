//! Where the buffers of a cast are at a moment. Each actor conserves buffers one by one, by pool,
//! number and length: so says what it stands for, and nothing that the others put matters. So all
//! that is counted of buffers is in queues and with actors what it was with actors at the start:
//! each buffer is in one place, and each buffer of a pool keeps its length.

pub mod actors;
pub mod count;
pub mod disk;
pub mod law;
pub mod turns;
pub mod wild_pages;
