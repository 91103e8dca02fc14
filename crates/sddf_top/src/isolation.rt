//! Isolation: what two answers show of a client.
ghost use Rattle.std.specs.Prelude.{◌≡◌, ℕ, Some, List, slice_get};
ghost use Rattle.cargo_core.specs.declared.item.Reply.{Reply};
ghost use Rattle.sdf_plan.specs.declared.plan.Plan.{Plan};
ghost use Rattle.trace_text.specs.declared.trace.Trace.{Trace};
ghost use Rattle.system_core.specs.declared.system.System.{System};
ghost use Rattle.system_core.specs.Reports.{report_of};
ghost use Rattle.system_core.specs.Isolation.{net_expected, serial_expected, blk_expected};
ghost use Rattle.system_core.specs.Isolation.{AgreeOnNet, AgreeOnSerial, AgreeOnBlk, AreOfOneList};
ghost use Rattle.system_core.specs.Isolation.{NetRests, SerialRests, BlkRests};
ghost use Rattle.system_core.specs.Isolation.{AreOfOneBut, may_drop, net_may_drop};
ghost use Rattle.sddf_top.specs.Isolation.{AnswersOn};

/// Of two answers of `serve` or `serve_alone`, to `play`, `gen` or `run`: where their plans and
/// traces agree in what determines a client, the records of it that their reports show are of the
/// one list that it must get by the first, whoever else is hostile. Both are beginnings of it, and
/// each is all of it where its report says `quiet` and no client of its class is hostile there; but
/// of a network client whose frames may be dropped, or a serial one whose bytes may be, a record is
/// what is left of that list in its order. What determines a client is what
/// `system_core::isolation_law` says.
pub fn isolation_law()
    ensures net { (plan other : Plan) (trace told : Trace) (s t : System) (c d : ℕ)
        (got seen : List (List ℕ)) → AnswersOn plan trace s → AnswersOn other told t
        → AgreeOnNet plan trace c other told d
        → slice_get (report_of s).net c ≡ Some got → slice_get (report_of t).net d ≡ Some seen
        → AreOfOneBut (net_expected plan trace c) (net_may_drop plan c) (NetRests plan s) got
        (net_may_drop other d) (NetRests other t) seen }
    ensures serial { (plan other : Plan) (trace told : Trace) (s t : System) (c : ℕ)
        (got seen : List ℕ) → AnswersOn plan trace s → AnswersOn other told t
        → AgreeOnSerial plan trace other told c
        → slice_get (report_of s).serial c ≡ Some got
        → slice_get (report_of t).serial c ≡ Some seen
        → AreOfOneBut (serial_expected plan trace c) (may_drop plan c) (SerialRests plan s) got
        (may_drop other c) (SerialRests other t) seen }
    ensures blk { (plan other : Plan) (trace told : Trace) (s t : System) (c d : ℕ)
        (got seen : List Reply) → AnswersOn plan trace s → AnswersOn other told t
        → AgreeOnBlk plan trace c other told d
        → slice_get (report_of s).blk c ≡ Some got → slice_get (report_of t).blk d ≡ Some seen
        → AreOfOneList (blk_expected plan trace c) (BlkRests plan s) got (BlkRests other t) seen }
{
    system_core::isolation_law();
}
