//! Isolation, over lists: of two plays that agree in what determines a client, its records are of
//! one list.
ghost use Rattle.std.specs.Prelude.{◌≡◌, ℕ, Bool, List};
ghost use Rattle.cargo_core.specs.declared.item.Ask.{Ask};
ghost use Rattle.cargo_core.specs.declared.item.Reply.{Reply};
ghost use Rattle.frame_core.specs.declared.mac.Mac.{Mac};
ghost use Rattle.class_expect.specs.NetExpect.Expecting.{frames_for};
ghost use Rattle.class_expect.specs.SerialSwitch.Switching.{input_of};
ghost use Rattle.class_expect.specs.BlkExpect.Replies.{replies_of};
ghost use Rattle.expect_core.specs.Isolation.{IsRecordOf, AreOfOne};
ghost use Rattle.expect_core.specs.Isolation.{AgreeOnFrames, AgreeOnInput, AgreeOnPartition};

/// Where two plays agree in what determines a client, its records in them are of the one list that
/// it must get in the first: both are beginnings of it, and each is all of it where its play is
/// quiet. A network client is determined by the frames for its address, a serial client by its part
/// of the input, and a block client by what it asks and by how many blocks its partition has, with
/// which bytes.
pub fn isolation_law()
    ensures net { (mac : Mac) (frames others : List (List ℕ)) (quiet still : Bool)
        (got seen : List (List ℕ)) → AgreeOnFrames mac frames others
        → IsRecordOf (frames_for mac frames) quiet got
        → IsRecordOf (frames_for mac others) still seen
        → AreOfOne (frames_for mac frames) quiet got still seen }
    ensures serial { (clients client : ℕ) (input other : List ℕ) (quiet still : Bool)
        (got seen : List ℕ) → AgreeOnInput clients client input other
        → IsRecordOf (input_of clients client input) quiet got
        → IsRecordOf (input_of clients client other) still seen
        → AreOfOne (input_of clients client input) quiet got still seen }
    ensures blk { (image other : List ℕ) (entry place : ℕ) (asks : List Ask)
        (quiet still : Bool) (got seen : List Reply)
        → AgreeOnPartition image entry other place
        → IsRecordOf (replies_of image entry asks) quiet got
        → IsRecordOf (replies_of other place asks) still seen
        → AreOfOne (replies_of image entry asks) quiet got still seen }
{}
