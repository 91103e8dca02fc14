//! Who reaches the regions of the queues and pools of a valid plan, and where these lie, without
//! the tables of the rules: a grant or a test that those leave out can't be proved here.

ghost use Rattle.std.specs.Prelude.{All};
ghost use Rattle.std.specs.List.{AllZip};
ghost use Rattle.sdf_plan.specs.declared.plan.Plan.{Plan};
ghost use Rattle.sdf_check.specs.Valid.{Valid};
ghost use Rattle.region_layout.specs.Bases.{bases_of};
ghost use Rattle.region_layout.specs.Rows.{queues_of, pools_of};
ghost use Rattle.layout_laws.specs.RegionLaws.Access.Access.{AreInterrupted, IsLinked, IsReached};
ghost use Rattle.layout_laws.specs.RegionLaws.Access.Access.{users_of};
ghost use Rattle.layout_laws.specs.RegionLaws.Access.Placing.{ArePlaced, AreStacked};

/// In the layout of a valid plan the two actors of each queue that stands in a region are domains
/// that a channel joins; each of them maps the region, by one map, to read and to write it, and no
/// other domain maps it. The pools are those of which the users are told, in that order: those that
/// read or fill a pool's buffers map its region so, and no domain that isn't among its users maps
/// it. The driver of each class has an interrupt. Each region has the base that it is given, or
/// else the least multiple of its page size that is free when its turn comes. The first queue of a
/// region stands at its front, and each other one at the least multiple of 64 behind the queue
/// before.
pub fn access_law()
    ensures links { (plan : Plan) → Valid plan → All (IsLinked plan) (queues_of plan) }
    ensures pools { (plan : Plan) → Valid plan
        → AllZip (IsReached plan) (pools_of plan) (users_of plan) }
    ensures drivers { (plan : Plan) → Valid plan → AreInterrupted plan }
    ensures bases { (plan : Plan) → Valid plan
        → ArePlaced plan.memory_region (bases_of plan.memory_region) }
    ensures offsets { (plan : Plan) → Valid plan → AreStacked (queues_of plan) }
{}
