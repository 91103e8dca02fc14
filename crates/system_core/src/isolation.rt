//! Isolation: what a client records is told by what determines it alone, whatever others are and
//! do, hostile or not.
ghost use Rattle.std.specs.Prelude.{◌≡◌, ℕ, Some, List, slice_get};
ghost use Rattle.cargo_core.specs.declared.item.Reply.{Reply};
ghost use Rattle.sdf_plan.specs.declared.plan.Plan.{Plan};
ghost use Rattle.trace_text.specs.declared.trace.Trace.{Trace};
ghost use Rattle.system_core.specs.Shows.{Shown};
ghost use Rattle.system_core.specs.Reports.{report_of};
ghost use Rattle.system_core.specs.PlanPlays.{IsSystemOf};
ghost use Rattle.system_core.specs.Isolation.{net_expected, serial_expected, blk_expected};
ghost use Rattle.system_core.specs.Isolation.{AgreeOnNet, AgreeOnSerial, AgreeOnBlk, AreOfOneList};
ghost use Rattle.system_core.specs.Isolation.{NetRests, SerialRests, BlkRests};
ghost use Rattle.system_core.specs.Isolation.{AreOfOneBut, may_drop, net_may_drop};
ghost use Rattle.system_core.specs.Isolation.{IsEchoAt, echo_expected, net_sends};

/// Of two systems, of whatever plans and traces, with hostile clients or without, however they were
/// played: where these agree in what determines a client, its records are of the one list that it
/// must get in the first. Both are beginnings of it, and each is all of it where its system is
/// quiet and no client of its class is hostile there. A hostile client's own record is empty. Of a
/// network client whose frames may be dropped in a system, or a serial one whose bytes may be, the
/// record there is what is left of that list, in its order. So it is of the frames by which an echo
/// answers: those that it sends in either system are of the answers to the one list.
///
/// A network client is determined by its address and the frames for it; a serial client by its
/// number, the number of serial clients and its part of the input; a block client by what it asks
/// and by how many blocks its partition has, with which bytes. All else may differ: who is hostile
/// and what they do, other classes and clients with their programs, scripts and partitions, buffers
/// and capacities, what the queues had before, seeds, limits and journals; of a network or a block
/// client its number too, and of a block client where its partition begins.
pub fn isolation_law()
    ensures net { (plan other : Plan) (trace told : Trace) (s t : Shown) (c d : ℕ)
        (got seen : List (List ℕ)) → IsSystemOf plan trace s → IsSystemOf other told t
        → AgreeOnNet plan trace c other told d
        → slice_get (report_of s).net c ≡ Some got → slice_get (report_of t).net d ≡ Some seen
        → AreOfOneBut (net_expected plan trace c) (net_may_drop plan c) (NetRests plan s) got
        (net_may_drop other d) (NetRests other t) seen }
    ensures echoes { (plan other : Plan) (trace told : Trace) (s t : Shown) (c d : ℕ)
        (sent seen : List (List ℕ)) → (h : IsSystemOf plan trace s) → (g : IsSystemOf other told t)
        → AgreeOnNet plan trace c other told d → IsEchoAt plan trace c → IsEchoAt other told d
        → slice_get (net_sends plan trace s h) c ≡ Some sent
        → slice_get (net_sends other told t g) d ≡ Some seen
        → AreOfOneBut (echo_expected plan trace c) (net_may_drop plan c) (Unit {0}) sent
        (net_may_drop other d) (Unit {0}) seen }
    ensures serial { (plan other : Plan) (trace told : Trace) (s t : Shown) (c : ℕ)
        (got seen : List ℕ) → IsSystemOf plan trace s → IsSystemOf other told t
        → AgreeOnSerial plan trace other told c
        → slice_get (report_of s).serial c ≡ Some got
        → slice_get (report_of t).serial c ≡ Some seen
        → AreOfOneBut (serial_expected plan trace c) (may_drop plan c) (SerialRests plan s) got
        (may_drop other c) (SerialRests other t) seen }
    ensures blk { (plan other : Plan) (trace told : Trace) (s t : Shown) (c d : ℕ)
        (got seen : List Reply) → IsSystemOf plan trace s → IsSystemOf other told t
        → AgreeOnBlk plan trace c other told d
        → slice_get (report_of s).blk c ≡ Some got → slice_get (report_of t).blk d ≡ Some seen
        → AreOfOneList (blk_expected plan trace c) (BlkRests plan s) got (BlkRests other t) seen }
{
    expect_core::isolation_law();
}
