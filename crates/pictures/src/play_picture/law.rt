//! That puts and takes belong together in pairs.
ghost use Rattle.std.specs.Prelude.{◌≡◌, ℕ, List, Some, true, slice_get};
ghost use Rattle.wire_core.specs.declared.names.Entry.{Entry};
ghost use Rattle.pictures.specs.declared.play_picture.pairs.Way.{Way};
ghost use Rattle.pictures.specs.PlayPicture.Pairs.{moves, other, partner_of};

/// The partner of a put is a take of the same queue, and that take's partner is this put; and the
/// other way round. So no take is the end of two arrows, and no put the start of two.
pub fn pair_law()
    ensures { (journal : List Entry) (way : Way) (k j : ℕ) (e f : Entry)
        → slice_get journal k ≡ Some e → moves way e.event.queue.0 e ≡ true
        → partner_of way journal k e ≡ Some j → slice_get journal j ≡ Some f
        → (moves (other way) e.event.queue.0 f ≡ true)
        × (partner_of (other way) journal j f ≡ Some k) }
{}
