//! The whole network in a system: from the rows of its actors at the layout's queues nothing comes
//! out of turn at the sending virtualiser but from a hostile client, and the wire is a merge of
//! beginnings of what the clients send: each by its program, a hostile one the frames of its good
//! descriptors. A client puts good descriptors alone, as long as such came back to it alone; that
//! none other came back is told by what it put before, whatever the others put.

ghost use Rattle.std.specs.Prelude.{◌≡◌, ◌+◌, ℕ, List, map};
ghost use Rattle.cargo_core.specs.Lists.{IsPrefix, PrefixMerge};
ghost use Rattle.frame_core.specs.declared.mac.Mac.{Mac};
ghost use Rattle.wire_core.specs.Lists.{Passed};
ghost use Rattle.wire_core.specs.Queues.{items_of};
ghost use Rattle.play_core.specs.Names.{Wild};
ghost use Rattle.class_expect.specs.NetExpect.Expecting.{Program};
ghost use Rattle.buffer_kit.specs.Entries.{frame_of};
ghost use Rattle.client_programs.specs.declared.net.NetClient.{NetClient};
ghost use Rattle.net_virt_tx.specs.Sending.{TxRow};
ghost use Rattle.net_law.specs.Dropped.{left_for, sends_upon};
ghost use Rattle.net_law.specs.Owners.Names.{ClientPools};
ghost use Rattle.net_law.specs.Parts.Numbers.{client_first};
ghost use Rattle.net_law.specs.TxParts.Numbers.{NetPlace};
ghost use Rattle.net_law.specs.TxScene.Playing.{CalmGood};
ghost use Rattle.net_quiet.specs.TxCast.Casting.{IsWholeCast, IsClientOf, IsSendingClient};
ghost use Rattle.net_quiet.specs.TxCast.Casting.{AreClients, AreSends, CalmSend, NoneHostile};
ghost use Rattle.net_quiet.specs.TxCast.Casting.{net_kept, net_marks, sends_at, sends_beside};
ghost use Rattle.net_quiet.specs.TxCast.Casting.{wire_at, wire_beside};
ghost use Rattle.net_quiet.specs.TxTurns.Turning.{StraysWild};

/// Where each client that isn't hostile put good descriptors of its own buffers alone, nothing
/// comes out of turn at the sending virtualiser but from a hostile client; of the others it takes
/// good descriptors alone; and the wire is a merge of beginnings of what the clients send: the
/// frames that the items tell which the device took. Whatever the others put, to a client that put
/// good descriptors of its own buffers such come back alone; to which such came back, it puts them
/// alone; and the frames that it puts are a beginning of those that it sends. Where no client is
/// hostile, each sends by its program.
pub fn whole_law()
    ensures turn { (wild : Wild) (net : NetPlace) (frames : List (List ℕ)) (passed : Passed)
        → (h : IsWholeCast net frames passed) → AreClients wild net passed
        → CalmSend wild net passed → (row : TxRow h.sender passed)
        → StraysWild wild h.sender row.place row.stray }
    ensures good { (wild : Wild) (net : NetPlace) (frames : List (List ℕ)) (passed : Passed)
        → (h : IsWholeCast net frames passed) → AreClients wild net passed
        → CalmSend wild net passed → CalmGood wild h.sender passed }
    ensures back { (net : NetPlace) (frames : List (List ℕ)) (passed : Passed)
        → IsWholeCast net frames passed → (k : ℕ) (program : Program) (mac : Mac) (q : ClientPools)
        → IsClientOf net k program mac q
        → AreSends net.most q.tx (passed.sent (client_first net.first k + 4))
        → AreSends net.most q.tx (passed.taken (client_first net.first k + 5)) }
    ensures puts { (net : NetPlace) (frames : List (List ℕ)) (passed : Passed)
        → IsWholeCast net frames passed → (k : ℕ) (program : Program) (mac : Mac) (q : ClientPools)
        → IsClientOf net k program mac q
        → (c : NetClient) → IsSendingClient net k program mac q c passed
        → AreSends net.most q.tx (passed.taken (client_first net.first k + 5))
        → AreSends net.most q.tx (passed.sent (client_first net.first k + 4)) }
    ensures begins { (net : NetPlace) (frames : List (List ℕ)) (passed : Passed)
        → IsWholeCast net frames passed → (k : ℕ) (program : Program) (mac : Mac) (q : ClientPools)
        → IsClientOf net k program mac q
        → (c : NetClient) → IsSendingClient net k program mac q c passed
        → AreSends net.most q.tx (passed.sent (client_first net.first k + 4))
        → IsPrefix (map frame_of (passed.sent (client_first net.first k + 4)))
        (sends_upon program mac (left_for (net_marks net passed.calls k) mac
        (net_kept net frames passed.calls))) }
    ensures wire { (wild : Wild) (net : NetPlace) (frames : List (List ℕ)) (passed : Passed)
        → (h : IsWholeCast net frames passed) → AreClients wild net passed
        → CalmSend wild net passed
        → PrefixMerge (sends_beside wild net frames passed) h.half.device.wire.tape.shown }
    ensures told { (wild : Wild) (net : NetPlace) (frames : List (List ℕ)) (passed : Passed)
        → (h : IsWholeCast net frames passed) → AreClients wild net passed
        → CalmSend wild net passed
        → h.half.device.wire.tape.shown ≡ wire_beside wild net frames passed }
    ensures calm { (wild : Wild) (net : NetPlace) (frames : List (List ℕ)) (passed : Passed)
        → IsWholeCast net frames passed → NoneHostile wild net
        → (sends_beside wild net frames passed ≡ sends_at (net_marks net passed.calls) 0
        net.programs net.macs (net_kept net frames passed.calls))
        × (wire_beside wild net frames passed
        ≡ wire_at net (net_marks net passed.calls) (net_kept net frames passed.calls)
        (items_of (passed.taken (net.first + 2)))) }
{}
