// The order of notes, by the journal of the post alone.
ghost use Rattle.std.specs.Prelude.{◌≡◌, ◌++◌, ◌∷◌, ℕ, List, []};
ghost use Rattle.pd_types.specs.declared.oracle.Seen.{Seen};
ghost use Rattle.tso_client.specs.Posts.{IsPost, heard_by, told_to};
ghost use Rattle.tso_client.specs.Slips.{entry_of};
ghost use Rattle.tso_client.specs.declared.entry.PostEntry.{PostEntry};
ghost use Rattle.tso_client.specs.declared.entry.PostWhat.TheVariants.{Nothing};

/// What a client heard are the first of the notes that were left for it, in the order in which they were
/// left: none is heard twice, and none before an older one. A client that hears nothing has heard all.
pub fn notes_are_heard_in_their_order()
    ensures first { (client : ℕ) (journal : List PostEntry) → IsPost journal →
        (later : List Seen) × (told_to client journal ≡ heard_by client journal ++ later) }
    ensures all { (client line : ℕ) (journal : List PostEntry) →
        IsPost (journal ++ entry_of client line Nothing ∷ []) →
        told_to client journal ≡ heard_by client journal }
{}
