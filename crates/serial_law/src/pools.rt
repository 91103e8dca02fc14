//! The serial class among the pools: its actors hand on entries without pages.

ghost use Rattle.std.specs.Prelude.{List};
ghost use Rattle.wire_core.specs.Lists.{Passed};
ghost use Rattle.play_core.specs.Moved.{Moved};
ghost use Rattle.owner_law.specs.Things.{Naming};
ghost use Rattle.turn_kit.specs.declared.pipe.Pipe.{Pipe};
ghost use Rattle.pipe_driver.specs.Drivers.{PipesRow};
ghost use Rattle.device_model.specs.SerialTerminal.Terminals.{TerminalRow};
ghost use Rattle.device_model.specs.declared.serial_terminal.Terminal.{Terminal};
ghost use Rattle.serial_virt.specs.Receiving.{RxRow};
ghost use Rattle.serial_virt.specs.Sending.{TxRow};
ghost use Rattle.serial_virt.specs.declared.rx.SerialVirtRx.{SerialVirtRx};
ghost use Rattle.serial_virt.specs.declared.tx.SerialVirtTx.{SerialVirtTx};
ghost use Rattle.owner_law.specs.Pools.Handing.{HandsOn, NameNothing};
ghost use Rattle.serial_law.specs.Pools.SerialEnds.{terminal_ends, piped_ends, rx_ends};
ghost use Rattle.serial_law.specs.Pools.SerialEnds.{tx_ends};

/// By their rows a device, a client, a driver of any number of pipes and the two virtualisers put
/// entries without pages where they took such: what is said, and what is switched, has none, and
/// the others hand on what came.
pub fn serial_on_law()
    ensures terminal { (naming : Naming) (t : Terminal) (passed : Passed) (m : Moved)
        → NameNothing naming (terminal_ends t) → TerminalRow t passed
        → HandsOn naming m passed (terminal_ends t) }
    ensures driver { (naming : Naming) (ps : List Pipe) (passed : Passed) (m : Moved)
        → NameNothing naming (piped_ends ps) → PipesRow ps passed
        → HandsOn naming m passed (piped_ends ps) }
    ensures receiver { (naming : Naming) (v : SerialVirtRx) (passed : Passed) (m : Moved)
        → NameNothing naming (rx_ends v) → RxRow v passed
        → HandsOn naming m passed (rx_ends v) }
    ensures sender { (naming : Naming) (v : SerialVirtTx) (passed : Passed) (m : Moved)
        → NameNothing naming (tx_ends v) → TxRow v passed
        → HandsOn naming m passed (tx_ends v) }
{}
