//! The owners of the network's buffers: by its row each of its actors puts only what it had at the
//! start and took.

ghost use Rattle.std.specs.Prelude.{ℕ, List, []};
ghost use Rattle.wire_core.specs.Lists.{Passed};
ghost use Rattle.play_core.specs.Moved.{Moved};
ghost use Rattle.owner_law.specs.Things.{Window, Naming};
ghost use Rattle.owner_law.specs.Keeping.{Keeps, all_taken, all_put};
ghost use Rattle.turn_kit.specs.declared.pipe.Pipe.{Pipe};
ghost use Rattle.pipe_driver.specs.Drivers.{PipesRow};
ghost use Rattle.device_model.specs.Ethernet.Devices.{DeviceRow};
ghost use Rattle.device_model.specs.declared.ethernet.EthDevice.{EthDevice};
ghost use Rattle.net_copier.specs.Copying.{CopierRow};
ghost use Rattle.net_copier.specs.declared.NetCopier.{NetCopier};
ghost use Rattle.client_programs.specs.Net.Clients.{ClientRow};
ghost use Rattle.client_programs.specs.declared.net.NetClient.{NetClient};
ghost use Rattle.net_law.specs.Owners.Lending.{Lender, lender_ends, LenderNames, LenderRow};
ghost use Rattle.net_law.specs.Owners.Ends.{AreItemsOf, device_ends, DeviceNames, pipe_ends};
ghost use Rattle.net_law.specs.Owners.Ends.{DriverNames, copier_ends, CopierNames, client_ends};
ghost use Rattle.net_law.specs.Owners.Ends.{ClientNames, client_start};

/// The rows of a device, a driver, a copier and a client let each put only what was in its hand,
/// whatever the device and the copier dropped: of the first three, which have nothing at the start,
/// what they took; of a client the buffers that it had too.
pub fn net_owner_law()
    ensures device { (naming : Naming) (rx tx : List Window) (d : EthDevice) (passed : Passed)
        (m : Moved) → DeviceNames naming rx tx d → AreItemsOf (device_ends d) passed m
        → DeviceRow d passed
        → Keeps (λ pool. []) (all_taken naming m (device_ends d))
        (all_put naming m (device_ends d)) }
    ensures driver { (naming : Naming) (ps : List Pipe) (passed : Passed) (m : Moved)
        → DriverNames naming ps → AreItemsOf (pipe_ends ps) passed m → PipesRow ps passed
        → Keeps (λ pool. []) (all_taken naming m (pipe_ends ps)) (all_put naming m (pipe_ends ps)) }
    ensures copier { (naming : Naming) (leased buffers : List Window) (c : NetCopier)
        (passed : Passed) (m : Moved) → CopierNames naming leased buffers c
        → AreItemsOf (copier_ends c) passed m → CopierRow c passed
        → Keeps (λ pool. []) (all_taken naming m (copier_ends c))
        (all_put naming m (copier_ends c)) }
    ensures client { (naming : Naming) (c : NetClient) (passed : Passed)
        (m : Moved) → ClientNames naming c → AreItemsOf (client_ends c) passed m
        → ClientRow c passed
        → Keeps (client_start c) (all_taken naming m (client_ends c))
        (all_put naming m (client_ends c)) }
{}

/// So does the row of the actor that lends: it makes as many leases of a buffer as the frames that
/// came in it have clients, and puts a buffer only where each of its leases is back.
pub fn lender_law()
    ensures { (naming : Naming) (buffers leased : List Window) (l : Lender) (m : Moved)
        → LenderNames naming buffers leased l → LenderRow buffers leased l m
        → Keeps l.hand (all_taken naming m (lender_ends l)) (all_put naming m (lender_ends l)) }
{}
