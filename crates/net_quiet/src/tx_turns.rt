//! The sending half of the network apart from any system: nothing comes out of turn but from a
//! hostile client, where the others put what was in their hands.

ghost use Rattle.std.specs.Prelude.{◌≡◌};
ghost use Rattle.wire_core.specs.Lists.{Passed};
ghost use Rattle.play_core.specs.Names.{Wild};
ghost use Rattle.turn_kit.specs.declared.pipe.Pipe.{Pipe};
ghost use Rattle.pipe_driver.specs.declared.pipes.Pipes.{Pipes};
ghost use Rattle.device_model.specs.declared.ethernet.EthDevice.{EthDevice};
ghost use Rattle.net_virt_tx.specs.declared.NetVirtTx.{NetVirtTx};
ghost use Rattle.net_law.specs.TxScene.Playing.{CalmGood};
ghost use Rattle.net_quiet.specs.TxTurns.Turning.{IsSendHalf, StraysWild};

/// On its way round nothing comes out of turn but from a hostile client, where each other client
/// puts good descriptors alone, and each buffer only while it was in its hand; and of those the
/// virtualiser takes good descriptors alone.
pub fn turn_law()
    ensures turn { (wild : Wild) (d : EthDevice) (p : Pipes (Pipes (Pipes Pipe))) (v : NetVirtTx)
        (passed : Passed) → (h : IsSendHalf wild d p v passed)
        → StraysWild wild v h.sending.virtualiser.place h.sending.virtualiser.stray }
    ensures good { (wild : Wild) (d : EthDevice) (p : Pipes (Pipes (Pipes Pipe))) (v : NetVirtTx)
        (passed : Passed) → IsSendHalf wild d p v passed → CalmGood wild v passed }
{}
