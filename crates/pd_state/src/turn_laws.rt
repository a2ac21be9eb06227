// What a scheduler's turn tells it.
ghost use Rattle.std.specs.Prelude.{◌≡◌, ◌∷◌, ℕ, List, [], Option, Some, None};
ghost use Rattle.op_control.specs.declared.turn.Dispatch.{Dispatch};
ghost use Rattle.pd_types.specs.declared.proposal.Proposal.{Proposal};
ghost use Rattle.sched_api.specs.Benches.{Seat, Seats, asked_last};
ghost use Rattle.sched_api.specs.declared.scheduler.Fate.TheVariants as fates;
ghost use Rattle.sched_api.specs.declared.scheduler.Said.{Said};
ghost use Rattle.pd_state.specs.BenchHeard.{HasHeard, OverBench, asked_at, fate_told};
ghost use Rattle.pd_state.specs.Wishing.{region_of};
ghost use Rattle.pd_state.specs.declared.adding.Adding.{Adding};
ghost use Rattle.pd_state.specs.declared.adding.Adding.TheVariants as adding;
ghost use Rattle.pd_state.specs.declared.entry.Entry.{Entry};
ghost use Rattle.pd_state.specs.declared.part.Part.{Part};
ghost use Rattle.pd_state.specs.declared.reply.Reply.TheVariants as replies;

/// After an entry for which a scheduler spoke, that scheduler is the one asked last. It was asked with
/// the cluster's clock of the entry, and was told since just what the entry's reply says.
pub fn who_spoke_has_heard()
    ensures heard { (part : Option Part) (entry : Entry) (said : Said) (old new : Seats) → OverBench part entry old new → entry.bench ≡ said ∷ [] → (one : Seat) × (asked_last new ≡ Some one) × HasHeard (asked_at part entry.request) (fate_told entry.reply) said one }
{}

/// Of a proposal it is told that an operator was added for its region, where one was, and else that it
/// was refused. Nothing is told where nothing was proposed.
pub fn what_is_told_of_a_proposal()
    ensures added { (name : List ℕ) (proposal : Proposal) (answer : Dispatch) → fate_told (replies.Proposed name proposal (adding.Added answer)) ≡ Some (fates.Added (region_of proposal)) }
    ensures refused { (name : List ℕ) (proposal : Proposal) (came : Adding) → ((answer : Dispatch) → came ≡ adding.Added answer → ⊥) → fate_told (replies.Proposed name proposal came) ≡ Some fates.Refused }
    ensures silent { (name : List ℕ) → fate_told (replies.Silent name) ≡ None }
    ensures nobody { fate_told replies.NoScheduler ≡ None }
{}
