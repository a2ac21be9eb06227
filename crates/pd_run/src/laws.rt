// What a driver's entries tell of its bench, one after the other.
ghost use Rattle.std.specs.Prelude.{◌≡◌, ◌∷◌, ◌++◌, List, flat_map};
ghost use Rattle.sched_api.specs.Benches.{Seats, names_of};
ghost use Rattle.pd_state.specs.BenchHeard.{names_heard};
ghost use Rattle.pd_state.specs.declared.entry.Entry.{Entry};
ghost use Rattle.pd_run.specs.Heard.{HeardAll, names_behind};

/// An entry hears the names of the schedulers that were handed in, less those that earlier entries removed.
/// At the end the bench said what it had said before, and then what its entries heard, in their order; and
/// its names are those that no entry removed.
pub fn what_entries_hear_of_a_bench()
    ensures names { (before behind : List Entry) (entry : Entry) (old new : Seats) → HeardAll (before ++ entry ∷ behind) old new → entry.names ≡ names_heard entry.request (names_behind before (names_of old)) }
    ensures said { (entries : List Entry) (old new : Seats) → HeardAll entries old new → new.said ≡ old.said ++ flat_map (λ (entry : Entry). entry.bench) entries }
    ensures left { (entries : List Entry) (old new : Seats) → HeardAll entries old new → names_of new ≡ names_behind entries (names_of old) }
{}
