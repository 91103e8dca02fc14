//! What holds of the layout of every valid plan: laws that tie the tables of queues, pools and
//! actors to the rules, what job each actor has, and at which queues it stands. They stand apart
//! from the layout, so that they grow without proving it again.
#![tactic(auto)]

ghost use Rattle.std.specs.Prelude.{◌≡◌, ℕ, All, Some};
ghost use Rattle.sdf_plan.specs.declared.plan.Plan.{Plan};
ghost use Rattle.sdf_plan.specs.declared.plan.Net.{Net};
ghost use Rattle.sdf_check.specs.ClassRules.{class_domains, class_regions};
ghost use Rattle.sdf_check.specs.Rules.{MeetsEarlier};
ghost use Rattle.sdf_check.specs.Valid.{Valid};
ghost use Rattle.region_layout.specs.Rows.{queues_of, pools_of};
ghost use Rattle.layout_laws.specs.Sound.{IsSoundQueue, IsSoundPool, IsOwned, IsActor, HasRooms};
ghost use Rattle.layout_laws.specs.Sound.{NoNameTwice, ranges_of};

pub mod jobs;
pub mod region_laws;
pub mod seats;

/// In the layout of a valid plan each queue has a capacity that is a power of two from 1 to 32,768
/// and lies inside its region, each pool has 1 to 512 buffers and lies inside its region, from the
/// region's base on, and no two queues or pools have a physical address in common. The two owners
/// of each queue are among the actors and differ, and in the network class each queue on which
/// buffers go back can hold the pool that may come to stand there. Each domain that a class element
/// names is the actor of its number, and no two keys of class elements name one domain or one
/// region.
pub fn layout_law()
    ensures queues { (plan : Plan) → Valid plan → All (IsSoundQueue plan) (queues_of plan) }
    ensures pools { (plan : Plan) → Valid plan → All (IsSoundPool plan) (pools_of plan) }
    ensures apart { (plan : Plan) → Valid plan → (k : ℕ) → ¬ MeetsEarlier (ranges_of plan) k }
    ensures owners { (plan : Plan) → Valid plan → All (IsOwned plan) (queues_of plan) }
    ensures rooms { (plan : Plan) → Valid plan → (net : Net) → plan.net ≡ Some net
        → HasRooms plan net }
    ensures actors { (plan : Plan) → Valid plan → All (IsActor plan) (class_domains plan) }
    ensures domains { (plan : Plan) → Valid plan → NoNameTwice (class_domains plan) }
    ensures regions { (plan : Plan) → Valid plan → NoNameTwice (class_regions plan) }
{}
