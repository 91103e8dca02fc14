//! What virtualisers keep of their clients, whatever their class.
ghost use Rattle.std.specs.Prelude.{◌≡◌, ℕ, Option, true, false, is_some, slice_get, take};
ghost use Rattle.std.specs.List.{list_any, sum_by};
ghost use Rattle.std.specs.Option.{MatchOption};
ghost use Rattle.wire_core.specs.Deeds.{Cargo};
ghost use Rattle.buffer_kit.specs.Clients.{capped, entry_in};

/// What is kept of one client.
pub trait Served {
    /// What it has for the driver.
    ghost leaving: { Self → Option Cargo };

    /// How many bad ones came from it.
    ghost bad_many: { Self → ℕ };

    /// Whether it has an entry for the driver.
    fn is_leaving(&self) -> bool
        ensures { result ≡ is_some (leaving self.now) };

    /// How many bad ones came from it. The count stands still at its type's end.
    fn bad(&self) -> u64
        ensures { result ≡ bad_many self.now };
}

/// The first client that has an entry for the driver.
pub fn leaver<C: Served>(clients: &[C]) -> Option<usize>
    ensures { MatchOption result (list_any (λ c. is_some (C.leaving c)) clients.now ≡ false)
        (λ k. (list_any (λ c. is_some (C.leaving c)) clients.now ≡ true)
        × (is_some (entry_in C.leaving (slice_get clients.now k)) ≡ true)
        × (list_any (λ c. is_some (C.leaving c)) (take k clients.now) ≡ false)) }
{
    for (place, client) in clients.iter().enumerate() {
        if client.is_leaving() {
            return Some(place);
        }
    }
    None
}

/// How many bad ones came from all clients. The count stands still at its type's end.
pub fn bad_of_all<C: Served>(clients: &[C]) -> u64
    ensures { result ≡ capped (sum_by C.bad_many clients.now) }
{
    let mut bad: u64 = 0;
    for client in clients {
        bad = bad.saturating_add(client.bad());
    }
    bad
}
