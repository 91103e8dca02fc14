//! Nothing comes out of turn at the sending virtualiser, whatever its clients put: a good
//! descriptor whose buffer came before and hasn't gone back would be a second page of one name.
ghost use Rattle.std.specs.Prelude.{◌≡◌, ℕ, None, Some, slice_get};
ghost use Rattle.wire_core.specs.Lists.{Passed};
ghost use Rattle.turn_kit.specs.declared.pipe.Pipe.{Pipe};
ghost use Rattle.net_virt_tx.specs.declared.NetVirtTx.{NetVirtTx};
ghost use Rattle.net_virt_tx.specs.declared.client.Client.{Client};
ghost use Rattle.net_virt_tx.specs.Serving.{own_of};
ghost use Rattle.net_virt_tx.specs.Sending.{TxStandsFor};
ghost use Rattle.wired_law.specs.PageLaw.Paths.{AreGood, AreOnce, InputApart, IsWay, on_way};

/// Where each page is at most once on the way between virtualiser and device and in the
/// virtualiser's hand, no entry came out of turn. What came back from the driver for a client is
/// good, as it was sent, wherever pages are.
pub fn turn_law()
    ensures turn { (v : NetVirtTx) (passed : Passed) → TxStandsFor v passed
        → (down device up : Pipe)
        → IsWay down device up v.ends.input.queue.0 v.ends.output.queue.0 passed
        → AreOnce (on_way down device up v.ends.input.queue.0 v.ends.output.queue.0 passed) v
        → InputApart v → v.work.stray ≡ None }
    ensures back { (v : NetVirtTx) (passed : Passed) → TxStandsFor v passed
        → (down device up : Pipe)
        → IsWay down device up v.ends.input.queue.0 v.ends.output.queue.0 passed
        → (k : ℕ) (c : Client) → slice_get v.work.clients.items k ≡ Some c
        → AreGood c.sender (own_of c.sender (passed.taken v.ends.input.queue.0)) }
{}
