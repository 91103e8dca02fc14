//! That the table is whole: its places are those of the walk, and each element has as many roles,
//! queues and pools as the tables of queues and pools give it.
ghost use Rattle.std.specs.Prelude.{◌≡◌, ◌++◌, ℕ, List, map};
ghost use Rattle.sdf_plan.specs.declared.place.Place.{Place};
ghost use Rattle.sdf_plan.specs.declared.plan.Plan.{Plan};
ghost use Rattle.sdf_plan.specs.declared.plan.Net.{Net};
ghost use Rattle.sdf_plan.specs.declared.plan.NetClient.{NetClient};
ghost use Rattle.sdf_plan.specs.declared.plan.Serial.{Serial};
ghost use Rattle.sdf_plan.specs.declared.plan.SerialClient.{SerialClient};
ghost use Rattle.sdf_plan.specs.declared.plan.Blk.{Blk};
ghost use Rattle.sdf_plan.specs.declared.plan.BlkClient.{BlkClient};
ghost use Rattle.sdf_plan.specs.Places.{walk};
ghost use Rattle.sdf_plan.specs.Elements.{outline_of};
ghost use Rattle.sdf_plan.specs.ClassTable.Table.{Element, table_of, class_part, HasRows, net_element};
ghost use Rattle.sdf_plan.specs.ClassTable.Table.{net_client_element, serial_element};
ghost use Rattle.sdf_plan.specs.ClassTable.Table.{serial_client_element, blk_element, blk_client_element};

/// The places of the table of a plan are the class part of the walk over it, with which the walk
/// ends. The network class has 3 roles, 8 queues and 1 pool, and each of its clients 2, 6 and 2;
/// the serial class 3, 4 and none, and a client 1, 2 and none; the block class 2, 4 and 1, and a
/// client 1, 2 and 1.
pub fn table_law()
    ensures places { (plan : Plan) → map (λ (e : Element). e.place) (table_of plan)
        ≡ class_part plan }
    ensures ends { (plan : Plan)
        → (before : List Place) × (walk (outline_of plan) ≡ before ++ class_part plan) }
    ensures net { (net : Net) → HasRows (net_element net) 3 8 1 }
    ensures net_client { (net : Net) (c : ℕ) (client : NetClient)
        → HasRows (net_client_element net c client) 2 6 2 }
    ensures serial { (serial : Serial) → HasRows (serial_element serial) 3 4 0 }
    ensures serial_client { (serial : Serial) (c : ℕ) (client : SerialClient)
        → HasRows (serial_client_element serial c client) 1 2 0 }
    ensures blk { (blk : Blk) → HasRows (blk_element blk) 2 4 1 }
    ensures blk_client { (blk : Blk) (c : ℕ) (client : BlkClient)
        → HasRows (blk_client_element blk c client) 1 2 1 }
{}
