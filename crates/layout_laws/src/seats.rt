//! Where the actors of a plan stand, by their jobs: each end of a job, told by the number of its
//! queue, is a row's of which the job's actor is the owner, and a row's owner has no other ends.

ghost use Rattle.std.specs.Prelude.{◌≡◌, ◌+◌, ◌*◌, ◌<◌, ◌≤◌, ℕ, Some, None, [], length, slice_get};
ghost use Rattle.std.specs.Option.{option_map_or};
ghost use Rattle.wire_core.specs.declared.names.QueueRow.{QueueRow};
ghost use Rattle.wire_core.specs.Ends.{Role, Consumer, Producer};
ghost use Rattle.wire_core.specs.Journal.{owner_of};
ghost use Rattle.cargo_core.specs.declared.item.QueueKind.TheVariants as Kind;
ghost use Rattle.sdf_plan.specs.declared.plan.Plan.{Plan};
ghost use Rattle.sdf_plan.specs.declared.plan.Net.{Net};
ghost use Rattle.sdf_plan.specs.declared.plan.Serial.{Serial};
ghost use Rattle.sdf_plan.specs.declared.plan.Blk.{Blk};
ghost use Rattle.sdf_check.specs.Valid.{Valid};
ghost use Rattle.region_layout.specs.Rows.{actors_of, net_queues, queues_of};
ghost use Rattle.play_core.specs.Moved.{Seat};
ghost use Rattle.play_core.specs.Wants.{intake, outlet};
ghost use Rattle.layout_laws.specs.Jobs.Jobs.{Job, HasJob};
ghost use Rattle.layout_laws.specs.Seats.Ends.{IsOf, serial_first, job_ends, job_kind};
ghost use Rattle.layout_laws.specs.Seats.Named.{AreNetNamed, AreSerialNamed, AreBlkNamed};

/// The actor of a job is the owner at each of its job's ends, and of no others; no job has both
/// ends of a queue, and its queues carry what its class does. Whoever stands at an end of a job
/// has that job. The queues of the network class are the first, and each
/// domain that a class element names has the job that it is named for, as each device has its own.
/// Queues and actors have numbers of 16 bits.
pub fn seat_law()
    ensures of { (plan : Plan) (job : Job) (k : ℕ) → HasJob plan job k → IsOf plan job }
    ensures seats { (plan : Plan) (job : Job) (k : ℕ) → HasJob plan job k
        → (i : ℕ) (s : Seat) → slice_get (job_ends plan job) i ≡ Some s
        → (row : QueueRow) × (slice_get (queues_of plan) s.queue ≡ Some row)
        × (owner_of row s.role ≡ k) × (row.kind ≡ job_kind plan job s.role s.queue) }
    ensures ends { (plan : Plan) → Valid plan → (n : ℕ) (row : QueueRow)
        → slice_get (queues_of plan) n ≡ Some row → (r : Role) (job : Job)
        → HasJob plan job (owner_of row r)
        → (i : ℕ) × (slice_get (job_ends plan job) i ≡ Some (record { queue = n; role = r })) }
    ensures known { (plan : Plan) (job : Job) → IsOf plan job
        → (i : ℕ) (s : Seat) → slice_get (job_ends plan job) i ≡ Some s
        → (row : QueueRow) → slice_get (queues_of plan) s.queue ≡ Some row
        → HasJob plan job (owner_of row s.role) }
    ensures split { (plan : Plan) → Valid plan → (job : Job) → IsOf plan job
        → (i j n : ℕ) → slice_get (job_ends plan job) i ≡ Some (intake n)
        → slice_get (job_ends plan job) j ≡ Some (outlet n) → ⊥ }
    ensures first { (plan : Plan)
        → length (option_map_or (net_queues plan) plan.net []) ≡ serial_first plan }
    ensures net { (plan : Plan) (net : Net) → plan.net ≡ Some net → (i : ℕ)
        → i < 8 + 6 * length net.client → (row : QueueRow)
        × (slice_get (queues_of plan) i ≡ Some row) × (row.kind ≡ Kind.Net) }
    ensures numbered { (plan : Plan) → Valid plan → length (queues_of plan) ≤ 65536 }
    ensures few { (plan : Plan) → Valid plan → length (actors_of plan) ≤ 65536 }
    ensures net_named { (plan : Plan) (net : Net) → plan.net ≡ Some net → AreNetNamed plan net }
    ensures serial_named { (plan : Plan) (serial : Serial) → plan.serial ≡ Some serial
        → AreSerialNamed plan serial }
    ensures blk_named { (plan : Plan) (blk : Blk) → plan.blk ≡ Some blk → AreBlkNamed plan blk }
{}
