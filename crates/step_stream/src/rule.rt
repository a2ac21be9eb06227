// The rule of the queue, and what each call tells.
use crossbeam_queue::protocol::{Join, Lesson, Outcome, Protocol, Split};
use pd_types::StepMsg;
use std::collections::LinkedList;

/// What an end of a stream knows. No value of it is made.
pub struct View {
    /// It is the end that pushes.
    pub gives: bool,
    /// It is the end that pops.
    pub takes: bool,
    /// What was pushed, where it is the end that pushes.
    pub pushed: LinkedList<StepMsg>,
    /// What was popped, where it is the end that pops.
    pub popped: LinkedList<StepMsg>,
    /// What it knows to have been pushed, by the notes that it met.
    pub known: LinkedList<StepMsg>,
}

/// What was pushed is what was popped and then what the queue holds.
pub struct InOrder;

impl Protocol<StepMsg, View> for InOrder {
    ghost use Rattle.std.specs.Prelude.{true, []};
    ghost use Rattle.step_stream.specs.Streams.{IsInOrder, view_of};

    ghost holds = { IsInOrder };

    ghost first = { view_of true true [] [] [] };
}

/// One end pushes, the other pops.
pub struct Ends;

impl Split<View> for Ends {
    ghost use Rattle.std.specs.Prelude.{true, false, []};
    ghost use Rattle.step_stream.specs.Streams.{view_of};

    ghost left = { λ v. view_of true false v.pushed [] [] };

    ghost right = { λ v. view_of false true [] v.popped [] };
}

impl Join<View> for Ends {
    ghost use Rattle.std.specs.Prelude.{true, false, []};
    ghost use Rattle.step_stream.specs.Streams.{view_of};

    ghost both = { λ v w. view_of true true v.pushed w.popped [] };

    ghost spent = { view_of false false [] [] [] };
}

/// A note knows what was pushed by then, and the end that meets it knows it too.
pub struct Notes;

impl Split<View> for Notes {
    ghost use Rattle.std.specs.Prelude.{false, []};
    ghost use Rattle.step_stream.specs.Streams.{view_of};

    ghost left = { λ v. v };

    ghost right = { λ v. view_of false false [] [] v.pushed };
}

impl Join<View> for Notes {
    ghost use Rattle.std.specs.Prelude.{false, []};
    ghost use Rattle.step_stream.specs.Streams.{longer, view_of};

    ghost both = { λ v w. view_of v.gives v.takes v.pushed v.popped (longer v.known w.known) };

    ghost spent = { view_of false false [] [] [] };
}

/// A push adds the step behind all that was pushed; one that finds the queue full tells that no more
/// stand in it than were pushed.
pub struct Pushing;

impl Outcome<StepMsg, View> for Pushing {
    ghost use Rattle.std.specs.Prelude.{◌≡◌, ◌++◌, ◌∷◌, []};
    ghost use Rattle.step_stream.specs.Streams.{view_of};

    ghost then = { λ v x w. w ≡ view_of v.gives v.takes (v.pushed ++ x ∷ []) v.popped v.known };
}

impl Lesson<StepMsg, View> for Pushing {
    ghost use Rattle.std.specs.Prelude.{◌≤◌, length};

    ghost fact = { λ v items. length items ≤ length v.pushed };
}

/// A pop adds the step behind all that was popped; one that finds the queue empty tells that what the
/// end knows to have been pushed was popped.
pub struct Popping;

impl Outcome<StepMsg, View> for Popping {
    ghost use Rattle.std.specs.Prelude.{◌≡◌, ◌++◌, ◌∷◌, []};
    ghost use Rattle.step_stream.specs.Streams.{view_of};

    ghost then = { λ v x w. w ≡ view_of v.gives v.takes v.pushed (v.popped ++ x ∷ []) v.known };
}

impl Lesson<StepMsg, View> for Popping {
    ghost use Rattle.std.specs.Prelude.{◌++◌};
    ghost use mathlib.Core.List.{IsPrefix};

    ghost fact = { λ v items. IsPrefix v.known (v.popped ++ items) };
}

/// Both ends together know what the queue holds.
pub struct Settling;

impl Lesson<StepMsg, View> for Settling {
    ghost use Rattle.std.specs.Prelude.{◌≡◌, ◌++◌};

    ghost fact = { λ v items. v.pushed ≡ v.popped ++ items };
}
