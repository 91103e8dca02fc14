//! When an actor of the network's receive half is at rest, by the journal: exactly where all that
//! its sheet wants is settled.

ghost use Rattle.std.specs.Prelude.{◌≡◌, ℕ, List};
ghost use Rattle.wire_core.specs.declared.names.Entry.{Entry};
ghost use Rattle.wire_core.specs.Lists.{Passed};
ghost use Rattle.wire_core.specs.Queues.{Queue, end_at};
ghost use Rattle.wire_core.specs.Journal.{History};
ghost use Rattle.turn_kit.specs.Turns.{is_at_rest};
ghost use Rattle.turn_kit.specs.declared.pipe.Pipe.{Pipe};
ghost use Rattle.play_core.specs.Moved.{moved};
ghost use Rattle.play_core.specs.Wants.{all_settled};
ghost use Rattle.play_core.specs.Sheets.{Scene};
ghost use Rattle.pipe_driver.specs.Drivers.{FitsPipes, PipesStandFor, pipes_round};
ghost use Rattle.device_model.specs.Ethernet.Devices.{FitsDevice, DeviceStandsFor, device_round};
ghost use Rattle.device_model.specs.declared.ethernet.EthDevice.{EthDevice};
ghost use Rattle.net_virt_rx.specs.Receiving.{FitsRx, RxStandsFor, rx_round};
ghost use Rattle.net_virt_rx.specs.declared.NetVirtRx.{NetVirtRx};
ghost use Rattle.net_copier.specs.Copying.{FitsCopier, CopierStandsFor, copier_round};
ghost use Rattle.net_copier.specs.declared.NetCopier.{NetCopier};
ghost use Rattle.client_programs.specs.Net.Clients.{FitsClient, ClientStandsFor};
ghost use Rattle.client_programs.specs.Net.Clients.{client_round};
ghost use Rattle.client_programs.specs.declared.net.NetClient.{NetClient};
ghost use Rattle.net_law.specs.Parts.Table.{net_sheet};
ghost use Rattle.net_law.specs.Parts.Playing.{device_part, driver_part, receiver_part};
ghost use Rattle.net_law.specs.Parts.Playing.{copier_part, client_part, AreLeases};
ghost use Rattle.net_law.specs.Parts.Playing.{ReceivesInTurn, AnswersWhole};
ghost use Rattle.play_core.specs.Rests.Showing.{HaveItems, HaveBells};

/// An actor that fits the queues as history and journal show them, and stands for the entries that
/// passed, is at rest exactly where all that its sheet wants is settled; a virtualiser and a copier
/// where nothing came out of turn.
pub fn rests_law()
    ensures device { (scene : Scene) (history : History) (journal : List Entry)
        (world : List Queue) (passed : Passed)
        → HaveItems passed (moved history journal) → HaveBells world history journal
        → (d : EthDevice) → FitsDevice (end_at world) d → DeviceStandsFor d passed
        → is_at_rest (device_round d) ≡ all_settled history journal
        ((net_sheet scene (device_part d)).wants (moved history journal)) }
    ensures driver { (scene : Scene) (history : History) (journal : List Entry)
        (world : List Queue) (passed : Passed)
        → HaveItems passed (moved history journal) → HaveBells world history journal
        → (ps : List Pipe) (last : ℕ) → FitsPipes (end_at world) ps → PipesStandFor ps passed
        → is_at_rest (pipes_round ps last) ≡ all_settled history journal
        ((net_sheet scene (driver_part ps)).wants (moved history journal)) }
    ensures receiver { (scene : Scene) (history : History) (journal : List Entry)
        (world : List Queue) (passed : Passed)
        → HaveItems passed (moved history journal) → HaveBells world history journal
        → (v : NetVirtRx) → ReceivesInTurn scene.frames v passed → FitsRx (end_at world) v
        → RxStandsFor v passed
        → is_at_rest (rx_round v) ≡ all_settled history journal
        ((net_sheet scene (receiver_part v)).wants (moved history journal)) }
    ensures copier { (scene : Scene) (history : History) (journal : List Entry)
        (world : List Queue) (passed : Passed)
        → HaveItems passed (moved history journal) → HaveBells world history journal
        → (c : NetCopier) → AreLeases (passed.taken c.lease_input.queue.0)
        → FitsCopier (end_at world) c → CopierStandsFor c passed
        → is_at_rest (copier_round c) ≡ all_settled history journal
        ((net_sheet scene (copier_part c)).wants (moved history journal)) }
    ensures client { (scene : Scene) (history : History) (journal : List Entry)
        (world : List Queue) (passed : Passed)
        → HaveItems passed (moved history journal) → HaveBells world history journal
        → (c : NetClient) → AnswersWhole c passed
        → FitsClient (end_at world) c → ClientStandsFor c passed
        → is_at_rest (client_round c) ≡ all_settled history journal
        ((net_sheet scene (client_part c)).wants (moved history journal)) }
{}
