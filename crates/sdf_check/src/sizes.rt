//! Which capacities, counts, buffers and permissions a class may have.
ghost use Rattle.std.specs.Prelude.{◌↔◌, IsTrue};
ghost use Rattle.cargo_core.specs.Capacities.{IsCapacity};
ghost use Rattle.sdf_check.specs.ClassRules.{IsClientCount, IsBufferCount, IsBufferSize, IsBadBuffer};
ghost use Rattle.sdf_check.specs.ClassRules.{AllowUse};

use crate::numbers::count_of;

/// Whether a number is a power of two from 1 to 32,768.
pub fn is_capacity(number: u64) -> bool
    ensures { IsTrue result ↔ IsCapacity number }
{
    for power in 0..16u32 {
        if number == 1 << power {
            return true;
        }
    }
    false
}

/// Whether a class may have so many clients.
pub fn is_client_count(number: usize) -> bool
    ensures { IsTrue result ↔ IsClientCount number }
{
    1 <= number && number <= 8
}

/// Whether a pool may have so many buffers.
pub fn is_buffer_count(number: u64) -> bool
    ensures { IsTrue result ↔ IsBufferCount number }
{
    1 <= number && number <= 512
}

/// Whether a network buffer may have so many bytes: a power of two from 2,048 to 16,384.
pub fn is_buffer_size(number: u64) -> bool
    ensures { IsTrue result ↔ IsBufferSize number }
{
    is_capacity(number) && 2048 <= number && number <= 16384
}

/// Whether a network buffer has no such size, or is too small for the longest frame.
pub fn is_bad_buffer(longest: u64, size: u64) -> bool
    ensures { IsTrue result ↔ IsBadBuffer longest size }
{
    !is_buffer_size(size) || size < longest
}

/// Whether permissions have `r`, and `w` where that is asked.
pub fn allow_use(perms: &str, writes: bool) -> bool
    ensures { IsTrue result ↔ AllowUse perms.now writes }
{
    let letters = perms.as_bytes();
    if count_of(b'r', letters) == 0 {
        return false;
    }
    if writes {
        count_of(b'w', letters) > 0
    } else {
        true
    }
}
