//! What a client of the bus is answered, whatever the others ask: a law on the requests that the
//! virtualiser took and on the devices, which knows no queues.

ghost use Rattle.std.specs.Prelude.{◌≡◌, ◌<◌, ℕ, Option, List, []};
ghost use Rattle.cargo_core.specs.declared.item.PoolId.{PoolId};
ghost use Rattle.cargo_core.specs.Lists.{IsPrefix};
ghost use Rattle.wire_core.specs.Deeds.{Cargo};
ghost use Rattle.i2c_text.specs.declared.bus.BusAsk.{BusAsk};
ghost use Rattle.i2c_text.specs.declared.report.BusReply.{BusReply};
ghost use Rattle.i2c_virt.specs.declared.i2c_kit.alone.Request.{Request};
ghost use Rattle.i2c_virt.specs.declared.i2c_kit.device.Device.{Device};
ghost use Rattle.i2c_virt.specs.I2cKit.Devices.{new_devices};
ghost use Rattle.i2c_virt.specs.I2cKit.Grants.{granted_to};
ghost use Rattle.i2c_virt.specs.I2cKit.Replies.{replies_by, replies_alone};
ghost use Rattle.i2c_virt.specs.Works.{Took, requests_in};
ghost use Rattle.bus_law.specs.I2cLaw.Moments.{AreServed, IsServed};
ghost use Rattle.bus_law.specs.I2cLaw.Judging.{verdicts_of, transfers_of, combined};
ghost use Rattle.bus_law.specs.I2cLaw.Shares.{asks_of, replies_for, served_by, asks_in, AtTheirOwn};

/// Of the replies to all requests, in the order in which they were taken, those to one client are
/// what its own requests, the devices and the addresses that were granted to it determine; and the
/// replies to the first of its requests are the first of the replies to all of them. So two buses
/// of the same devices give a client that asks the same and is granted the same beginnings of one
/// list, whatever the other clients ask and whenever.
pub fn alone_law()
    ensures alone { (addresses : List ℕ) (taken : List Request) (client : ℕ)
        → replies_for client taken (replies_by addresses taken)
        ≡ replies_alone (granted_to client taken) addresses (asks_of client taken) }
    ensures begins { (granted addresses : List ℕ) (some all : List BusAsk) → IsPrefix some all
        → IsPrefix (replies_alone granted addresses some) (replies_alone granted addresses all) }
{}

/// Where each transfer is at an address that its client has, what a client is answered is what the
/// devices alone answer to its own transfers, in whichever order those of all clients are done.
pub fn serve_law()
    ensures { (owner : ℕ → Option ℕ) (devices : List Device) (transfers : List Request)
        (client : ℕ) → AtTheirOwn owner transfers
        → replies_for client transfers (served_by devices (asks_in transfers))
        ≡ served_by devices (asks_of client transfers) }
{}

/// Where the virtualiser judges each request by those that it took before, of whatever client, and
/// the devices do what goes to the driver of one client in its order, what it is answered is what
/// its own requests, the devices and the addresses that were granted to it determine.
pub fn judge_law()
    ensures { (addresses : List ℕ) (taken : List Request) (client : ℕ)
        → combined (verdicts_of client [] taken)
        (served_by (new_devices addresses) (transfers_of client [] taken))
        ≡ replies_alone (granted_to client taken) addresses (asks_of client taken) }
{}

/// Of one moment's lists alone: where each client puts its requests in their order and records what
/// it is given, the virtualiser judges, forwards and answers as its row says, and what came back
/// from the driver are the first of the bus's answers, what a client recorded is a beginning of
/// what its own requests, the devices and the addresses that were granted to it determine.
pub fn moment_law()
    ensures { (clients : ℕ) (addresses : List ℕ) (log : List Took) (sent back : List Cargo)
        → AreServed clients addresses log sent back → (client : ℕ) → client < clients
        → (pool : PoolId) (script : List BusAsk) (put given came : List Cargo)
        (replies : List BusReply) → IsServed client pool script log back put given came replies
        → IsPrefix replies (replies_alone (granted_to client (requests_in log)) addresses script) }
{}
