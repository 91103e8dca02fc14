//! The jobs of a plan's actors, of all classes: each actor of a valid plan has just one, no two
//! have the same, and by these the layout says whose its queues are.

ghost use Rattle.std.specs.Prelude.{◌≡◌, ◌<◌, ℕ, Some, length, slice_get};
ghost use Rattle.wire_core.specs.declared.names.QueueRow.{QueueRow};
ghost use Rattle.sdf_plan.specs.declared.plan.Plan.{Plan};
ghost use Rattle.sdf_check.specs.Valid.{Valid};
ghost use Rattle.region_layout.specs.Rows.{actors_of, queues_of};
ghost use Rattle.layout_laws.specs.Jobs.Jobs.{Job, HasJob};
ghost use Rattle.layout_laws.specs.Jobs.Queues.{Owners, owners_of};

/// In a valid plan each actor has a job, which is no other actor's, and it has no other. Who has
/// a job is an actor. Each of the layout's queues has the owners whose jobs the table gives it.
pub fn job_law()
    ensures each { (plan : Plan) → Valid plan → (k : ℕ) → k < length (actors_of plan)
        → (job : Job) × HasJob plan job k }
    ensures one { (plan : Plan) → (job : Job) (j k : ℕ) → HasJob plan job j → HasJob plan job k
        → j ≡ k }
    ensures same { (plan : Plan) → Valid plan → (a b : Job) (k : ℕ) → HasJob plan a k
        → HasJob plan b k → a ≡ b }
    ensures below { (plan : Plan) → Valid plan → (job : Job) (k : ℕ) → HasJob plan job k
        → k < length (actors_of plan) }
    ensures many { (plan : Plan) → length (owners_of plan) ≡ length (queues_of plan) }
    ensures owners { (plan : Plan) → (n : ℕ) (row : QueueRow)
        → slice_get (queues_of plan) n ≡ Some row
        → (o : Owners) × (slice_get (owners_of plan) n ≡ Some o)
        × HasJob plan o.producer row.producer.0 × HasJob plan o.consumer row.consumer.0 }
{}
