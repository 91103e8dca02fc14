//! The owner table of two journals, worked by hand: the lines of pools at some moments, and entries
//! that find nothing where they take it from. Nothing stands on it.

ghost use Rattle.std.specs.Prelude.{◌≡◌, true, false, [], ◌∷◌};
ghost use Rattle.owner_law.specs.Owners.{InQueue, InHand, At, Lent};
ghost use Rattle.owner_law.specs.Keeping.{start_table};
ghost use Rattle.actor_rows.specs.Owners.Reading.{asked, responded, replied, block_table};
ghost use Rattle.actor_rows.specs.Owners.Reading.{block_line};
ghost use Rattle.actor_rows.specs.Owners.Broadcast.{to_the_virtualiser, lent, first_back};
ghost use Rattle.actor_rows.specs.Owners.Broadcast.{both_back, answered, table, line, counts};
ghost use Rattle.actor_rows.specs.Owners.Broadcast.{all_found, next_found, puts, takes, actors};

/// The lines of the receive buffers at each moment, and of all pools at the end.
pub fn broadcast_rows()
    ensures full { line to_the_virtualiser 0 1 ≡ counts 1 0 0 }
    ensures lent { line lent 0 1 ≡ counts 0 0 1 }
    ensures both_receive { (table lent).place (record { pool = 0; no = 0 }) ≡ Lent 2 }
    ensures leases { (table lent).leases (record { pool = 0; no = 0 }) ≡ InHand 1 ∷ InHand 1 ∷ [] }
    ensures one_receives { (table first_back).place (record { pool = 0; no = 0 }) ≡ Lent 1 }
    ensures one_lease { (table first_back).leases (record { pool = 0; no = 0 }) ≡ InQueue 14 ∷ [] }
    ensures back { line both_back 0 1 ≡ counts 0 1 0 }
    ensures receive_pool { line answered 0 1 ≡ counts 1 0 0 }
    ensures first_received { line answered 1 2 ≡ counts 2 0 0 }
    ensures first_sent { line answered 2 2 ≡ counts 0 2 0 }
    ensures second_received { line answered 3 2 ≡ counts 2 0 0 }
    ensures second_sent { line answered 4 2 ≡ counts 1 1 0 }
    ensures found { all_found [] (start_table actors) answered ≡ true }
{}

/// A buffer put at the first lease back, a buffer put twice, a lease put twice, a buffer of another
/// client, and a lease given back twice aren't where they are taken from.
pub fn wrong_rows()
    ensures at_the_first_lease { next_found first_back (puts 1 5 0x10000000) ≡ false }
    ensures twice { next_found answered (puts 1 5 0x10000000) ≡ false }
    ensures third_lease { next_found first_back (puts 1 8 0) ≡ false }
    ensures of_another { next_found answered (puts 5 18 2048) ≡ false }
    ensures back_twice { next_found first_back (takes 1 9 0) ≡ false }
{}

/// A response names the buffer of the request of its place: the lines of the virtualiser's pool and
/// of the client's while the disk has a read's request, and when its response is on its way and
/// back.
pub fn reading_rows()
    ensures own { block_line asked 0 1 ≡ counts 0 1 0 }
    ensures at_the_disk { (block_table asked).place (record { pool = 1; no = 1 }) ≡ At (InHand 3) }
    ensures under_way { (block_table responded).place (record { pool = 1; no = 1 })
        ≡ At (InQueue 1) }
    ensures waiting { block_line responded 1 2 ≡ counts 1 1 0 }
    ensures back { (block_table replied).place (record { pool = 1; no = 1 }) ≡ At (InHand 2) }
    ensures at_hand { block_line replied 1 2 ≡ counts 0 2 0 }
{}
