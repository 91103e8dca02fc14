//! Counting buffers one by one, and by pool.
ghost use Rattle.std.specs.Prelude.{List};
ghost use Rattle.cargo_core.specs.declared.item.Body.{Body};
ghost use Rattle.turn_kit.specs.Hands.{Balances};
ghost use Rattle.buffer_kit.specs.Conserving.{Conserves};

/// Where buffers are conserved one by one, the buffers of each pool are.
pub fn count_law()
    ensures { (start came went hand kept : List Body) → Conserves start came went hand kept
        → Balances start came went hand kept }
{}
