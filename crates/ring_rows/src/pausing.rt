//! What a neighbour does between two looks in vain.
use std::hint::spin_loop;
use std::thread::yield_now;

/// So many pauses of the processor, in which the other end may move several entries, and then the
/// turn of another thread, if one waits for this processor.
pub fn pause(pauses: u32) {
    for _ in 0..pauses {
        spin_loop();
    }
    yield_now();
}
