// What windows of ids come to.
ghost use Rattle.std.specs.Prelude.{◌≡◌, ◌≢◌, ◌+◌, ◌<◌, ◌≤◌, ℕ, List, [], ◌∷◌, codes, AllPairs};
ghost use Rattle.meta_store.specs.declared.record.MetaCall.TheVariants as calls;
ghost use Rattle.id_alloc.specs.Runs.{IsRun, State};
ghost use Rattle.id_alloc.specs.Windows.{IsSpent, TakesLeft, TakesSaved, Window, id_call, window_in};
ghost use Rattle.meta_store.specs.Doors.{Spoken};

/// However windows are made of the records that leads hand out, and whichever of them takes an id
/// over one metadata, where the record `id` is written by windows alone: no id is taken twice.
pub fn no_id_is_taken_twice()
    ensures distinct { (now : State) (earlier : List State) → IsRun now earlier → AllPairs (λ one other. one ≢ other) now.ids }
{}

/// Without a record, or with one that doesn't read, the first id is 1,000,001. A window that is saved has a thousand ids, which lie
/// behind those of the window before; its ids are taken one after the other. Windows are spent
/// where the next end would be 2^63 or more, and not before.
pub fn a_window_has_a_thousand_ids()
    ensures first { window_in [] ≡ record { end = 1000000; revision = 0; taken = 1000000 } }
    ensures found { window_in (record { key = codes "id"; revision = 5; bytes = codes "1001000" } ∷ []) ≡ record { end = 1001000; revision = 5; taken = 1001000 } }
    ensures other { window_in (record { key = codes "id"; revision = 5; bytes = codes "01" } ∷ []) ≡ record { end = 1000000; revision = 5; taken = 1000000 } }
    ensures call { id_call 7 (record { end = 1001000; revision = 5; taken = 1001000 }) ≡ calls.Put 7 (codes "id") 5 (codes "1002000") }
    ensures saved { (old new : Window) (revision id : ℕ) → TakesSaved old new revision id →
        (new.end ≡ old.end + 1000) × (id ≡ old.end + 1) × (new.taken ≡ id) × (new.end < 9223372036854775808) }
    ensures spent { (old : Window) (talk : Spoken) → IsSpent old talk →
        (old.taken ≡ old.end) × (9223372036854775808 ≤ old.end + 1000) }
    ensures left { (old new : Window) (id : ℕ) → TakesLeft old new id →
        (id ≡ old.taken + 1) × (new.taken ≡ id) × (new.end ≡ old.end) × (new.revision ≡ old.revision) }
{}
