//! The disk conserves buffers one by one.
ghost use Rattle.std.specs.Prelude.{ℕ, List, [], ◌∷◌};
ghost use Rattle.wire_core.specs.Lists.{Passed};
ghost use Rattle.turn_kit.specs.Hands.{bodies_at};
ghost use Rattle.device_model.specs.declared.disk.DiskDevice.{DiskDevice};
ghost use Rattle.device_model.specs.Disk.Disks.{DiskStandsFor, disk_hand, req, resp};
ghost use Rattle.buffer_kit.specs.Conserving.{Conserves};

/// Whatever is counted, what came is what went and what is in its hand.
pub fn disk_law()
    ensures { (start : List ℕ) (d : DiskDevice) (passed : Passed) → DiskStandsFor start d passed
        → Conserves [] (bodies_at passed.taken (req d ∷ [])) (bodies_at passed.sent (resp d ∷ []))
        (disk_hand d) [] }
{}
