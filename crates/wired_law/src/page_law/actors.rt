//! The actors of all classes conserve buffers one by one: from what each stands for, and nothing of
//! what the others put.
ghost use Rattle.std.specs.Prelude.{◌≡◌, List, [], ◌∷◌, ◌++◌, length, map};
ghost use Rattle.cargo_core.specs.declared.item.Body.TheVariants as Carried;
ghost use Rattle.wire_core.specs.Lists.{Passed};
ghost use Rattle.turn_kit.specs.Hands.{bodies_at, bodies_of};
ghost use Rattle.turn_kit.specs.ManyEnds.{intake_queues, outlet_queues};
ghost use Rattle.turn_kit.specs.declared.pipe.Pipe.{Pipe};
ghost use Rattle.pipe_driver.specs.Drivers.{PipesStandFor, inputs_of, outputs_of, pipes_hand};
ghost use Rattle.buffer_kit.specs.Conserving.{Conserves};
ghost use Rattle.buffer_kit.specs.Pools.{page_bodies};
ghost use Rattle.buffer_kit.specs.Virtualising.{from_queues, to_queues, virt_came, virt_went};
ghost use Rattle.serial_virt.specs.declared.rx.SerialVirtRx.{SerialVirtRx};
ghost use Rattle.serial_virt.specs.declared.tx.SerialVirtTx.{SerialVirtTx};
ghost use Rattle.serial_virt.specs.Receiving as SerialRx;
ghost use Rattle.serial_virt.specs.Sending as SerialTx;
ghost use Rattle.net_virt_rx.specs.declared.NetVirtRx.{NetVirtRx};
ghost use Rattle.net_virt_rx.specs.Receiving.{RxStandsFor};
ghost use Rattle.net_virt_rx.specs.Sharing.{lent_bodies, sharer_hand};
ghost use Rattle.net_virt_tx.specs.declared.NetVirtTx.{NetVirtTx};
ghost use Rattle.net_virt_tx.specs.Sending.{TxStandsFor};
ghost use Rattle.net_virt_tx.specs.Traffics.{traffic_hand};
ghost use Rattle.net_copier.specs.declared.NetCopier.{NetCopier};
ghost use Rattle.net_copier.specs.Copying.{CopierStandsFor, copier_hand};
ghost use Rattle.device_model.specs.declared.ethernet.EthDevice.{EthDevice};
ghost use Rattle.device_model.specs.Ethernet.Devices as Device;
ghost use Rattle.device_model.specs.declared.serial_terminal.Terminal.{Terminal};
ghost use Rattle.device_model.specs.SerialTerminal.Terminals.{TerminalStandsFor, terminal_hand};
ghost use Rattle.client_programs.specs.declared.net.NetClient.{NetClient};
ghost use Rattle.client_programs.specs.Net.Clients.{ClientStandsFor, client_hand, rx_active};
ghost use Rattle.client_programs.specs.Net.Clients.{rx_free, tx_active, tx_free};
ghost use Rattle.client_programs.specs.declared.blk.BlkClient.{BlkClient};
ghost use Rattle.client_programs.specs.Blk.Clients.{BlkClientStandsFor, blk_client_hand};
ghost use Rattle.client_programs.specs.Blk.Clients.{resp_queue, req_queue};
ghost use Rattle.blk_virt.specs.declared.virtualiser.BlkVirt.{BlkVirt};
ghost use Rattle.blk_virt.specs.Virtualising.{BlkVirtStandsFor};
ghost use Rattle.blk_virt.specs.Works.{work_cargo};

/// Of the network class and of each driver: whatever is counted, what an actor had at the start and
/// what came is what went, what is in its hand, and what it lends.
pub fn network_law()
    ensures copier { (c : NetCopier) (passed : Passed) → CopierStandsFor c passed
        → Conserves [] (bodies_at passed.taken (c.lease_input.queue.0 ∷ c.buffer_input.queue.0
        ∷ [])) (bodies_at passed.sent (c.buffer_output.queue.0 ∷ c.lease_output.queue.0 ∷ []))
        (copier_hand c) [] }
    ensures client { (c : NetClient) (passed : Passed) (h : ClientStandsFor c passed)
        → Conserves (page_bodies h.start ++ page_bodies h.sends.start)
        (bodies_at passed.taken (rx_active c ∷ tx_free c ∷ []))
        (bodies_at passed.sent (rx_free c ∷ tx_active c ∷ [])) (client_hand c) [] }
    ensures driver { (ps : List Pipe) (passed : Passed) → PipesStandFor ps passed
        → Conserves [] (bodies_at passed.taken (inputs_of ps))
        (bodies_at passed.sent (outputs_of ps)) (pipes_hand ps) [] }
    ensures device { (d : EthDevice) (passed : Passed) → Device.DeviceStandsFor d passed
        → Conserves [] (bodies_at passed.taken (Device.rx_free d ∷ Device.tx_active d ∷ []))
        (bodies_at passed.sent (Device.rx_active d ∷ Device.tx_free d ∷ []))
        (Device.device_hand d) [] }
    ensures sender { (v : NetVirtTx) (passed : Passed) → TxStandsFor v passed
        → Conserves [] (bodies_at passed.taken (virt_came v.ends))
        (bodies_at passed.sent (virt_went v.ends)) (traffic_hand v.work) [] }
    ensures receiver { (v : NetVirtRx) (passed : Passed) (h : RxStandsFor v passed)
        → length (from_queues v.ends) ≡ length v.work.macs.items
        → length (to_queues v.ends) ≡ length v.work.macs.items
        → Conserves (page_bodies h.start) (bodies_at passed.taken (virt_came v.ends))
        (bodies_at passed.sent (virt_went v.ends)) (sharer_hand v.work)
        (lent_bodies v.work.lent) }
{}

/// Of the serial class: what a terminal or the receiving virtualiser takes it keeps for good, and
/// what they put are bytes, which are no buffers.
pub fn serial_law()
    ensures terminal { (t : Terminal) (passed : Passed) → TerminalStandsFor t passed
        → Conserves [] (bodies_at passed.taken (t.input.queue.0 ∷ []))
        (bodies_at passed.sent (t.output.queue.0 ∷ [])) (terminal_hand t)
        (bodies_at passed.taken (t.input.queue.0 ∷ [])) }
    ensures receiver { (v : SerialVirtRx) (passed : Passed) → SerialRx.RxStandsFor v passed
        → Conserves [] (bodies_at passed.taken (v.input.queue.0 ∷ []))
        (bodies_at passed.sent (map (λ q. q.0) (outlet_queues v.outputs))) (SerialRx.rx_hand v)
        (bodies_at passed.taken (v.input.queue.0 ∷ [])) }
    ensures sender { (v : SerialVirtTx) (passed : Passed) → SerialTx.TxStandsFor v passed
        → Conserves [] (bodies_at passed.taken (map (λ q. q.0) (intake_queues v.inputs)))
        (bodies_at passed.sent (v.output.queue.0 ∷ [])) (SerialTx.tx_hand v) [] }
{}

/// Of the block class: so does the virtualiser, with its own buffer, and so do its clients.
pub fn block_law()
    ensures server { (v : BlkVirt) (passed : Passed) (h : BlkVirtStandsFor v passed)
        → Conserves (Carried.Page h.start ∷ []) (bodies_at passed.taken (virt_came v.ends))
        (bodies_at passed.sent (virt_went v.ends)) (bodies_of (work_cargo v.work)) [] }
    ensures client { (c : BlkClient) (passed : Passed) (h : BlkClientStandsFor c passed)
        → Conserves (page_bodies h.start) (bodies_at passed.taken (resp_queue c ∷ []))
        (bodies_at passed.sent (req_queue c ∷ [])) (blk_client_hand c) [] }
{}
