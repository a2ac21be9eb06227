// What it means that a note is met.
ghost use Rattle.std.specs.Prelude.{◌≡◌, ◌⊎◌, ◌≤◌, List, length};
ghost use Rattle.pd_types.specs.declared.step.StepMsg.{StepMsg};
ghost use Rattle.step_stream.specs.Streams.{longer};

/// Who meets a note knows what he knew or what the note knows, whichever is more.
pub fn who_meets_a_note_knows_no_less()
    ensures own { (one other : List StepMsg) → length one ≤ length (longer one other) }
    ensures met { (one other : List StepMsg) → length other ≤ length (longer one other) }
    ensures either { (one other : List StepMsg) → (longer one other ≡ one) ⊎ (longer one other ≡ other) }
{}
