//! The receiving virtualiser among the owners of the network's buffers: by its row it puts only
//! what it had at the start and took, and no buffer of which a lease is out.

ghost use Rattle.std.specs.Prelude.{◌≡◌, ℕ, None, List, [], ◌∷◌, length};
ghost use Rattle.wire_core.specs.Lists.{Passed};
ghost use Rattle.play_core.specs.Moved.{Moved};
ghost use Rattle.wire_core.specs.Bells.{bit};
ghost use Rattle.owner_law.specs.Things.{Buffer, Naming};
ghost use Rattle.owner_law.specs.Keeping.{Keeps, all_taken, all_put, is_out};
ghost use Rattle.buffer_kit.specs.Virtualising.{from_queues, to_queues};
ghost use Rattle.net_virt_rx.specs.Receiving.{RxRow, RxStandsFor};
ghost use Rattle.net_virt_rx.specs.declared.NetVirtRx.{NetVirtRx};
ghost use Rattle.net_law.specs.Owners.Ends.{AreItemsOf, stock_window};
ghost use Rattle.net_law.specs.Owners.Lending.{lender_ends, LenderNames, LenderRow};
ghost use Rattle.net_law.specs.RxOwners.Virtualiser.{rx_lender, offset_window, TakesFrames};
ghost use Rattle.net_law.specs.RxOwners.Virtualiser.{lent_now};

/// The row of the receiving virtualiser, where the frames that it took are those of their places:
/// each client's leases are of the frames for it, in their order, and each buffer that it put was
/// in its hand. So it puts only what was in its hand. Where nothing came out of turn, the buffers
/// that it has lent by what it took are those that have a receiver.
pub fn virtualiser_law()
    ensures row { (frame : ℕ → List ℕ) (v : NetVirtRx) (passed : Passed) (m : Moved)
        → AreItemsOf (lender_ends (rx_lender frame v)) passed m → TakesFrames frame v passed
        → RxRow v passed
        → LenderRow (stock_window v.work.stock ∷ []) (offset_window v.work.stock ∷ [])
        (rx_lender frame v) m }
    ensures keeps { (naming : Naming) (frame : ℕ → List ℕ) (v : NetVirtRx) (passed : Passed)
        (m : Moved)
        → LenderNames naming (stock_window v.work.stock ∷ []) (offset_window v.work.stock ∷ [])
        (rx_lender frame v)
        → AreItemsOf (lender_ends (rx_lender frame v)) passed m → TakesFrames frame v passed
        → RxRow v passed
        → Keeps (rx_lender frame v).hand (all_taken naming m (lender_ends (rx_lender frame v)))
        (all_put naming m (lender_ends (rx_lender frame v))) }
    ensures lent { (naming : Naming) (frame : ℕ → List ℕ) (v : NetVirtRx) (passed : Passed)
        (m : Moved)
        → LenderNames naming (stock_window v.work.stock ∷ []) (offset_window v.work.stock ∷ [])
        (rx_lender frame v)
        → AreItemsOf (lender_ends (rx_lender frame v)) passed m → TakesFrames frame v passed
        → RxStandsFor v passed → v.work.stray ≡ None
        → length (to_queues v.ends) ≡ length v.work.macs.items
        → length (from_queues v.ends) ≡ length v.work.macs.items → (b : Buffer)
        → bit (is_out b (all_taken naming m (lender_ends (rx_lender frame v)))) ≡ lent_now v b }
{}
