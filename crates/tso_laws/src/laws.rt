// What the definitions give, by themselves.
ghost use Rattle.std.specs.Prelude.{◌≡◌, List};
ghost use Rattle.tso_model.specs.declared.view.Setup.{Setup};
ghost use Rattle.tso_model.specs.Sound.{IsSetup};
ghost use Rattle.tso_core.specs.Whole.{Whole};
ghost use Rattle.tso_core.specs.Sound.{IsSound};
ghost use Rattle.tso_core.specs.Opened.{opened};
ghost use Rattle.tso_laws.specs.WholeCalls.{EachWholeCallTells, StepsName};
ghost use Rattle.tso_laws.specs.Laws.{AreLedger, AreBounded, DrawsGrant, AgainPassed, TakeAgainPassed, RefusesOutOfTurn, BatchesGrow, TakesGrant, EachCallTells, IsNew, Call, AreCalls, played};

/// The state is sound after every list of steps and notes of any actors.
pub fn every_list_of_calls_keeps()
    ensures sound { (k : Setup) → IsSetup k → (calls : List Call) → AreCalls k calls → IsSound (played (opened k) calls) }
{}

/// What a sound state says: its windows and batches rise, its cursors are bounded, and a client
/// gets what is above all that it had seen.
pub fn every_sound_state_tells()
    ensures ledger { (w : Whole) → IsSound w → AreLedger w }
    ensures cursors { (w : Whole) → IsSound w → AreBounded w }
    ensures grants { (w : Whole) → IsSound w → DrawsGrant w }
    ensures takes { (w : Whole) → IsSound w → TakesGrant w }
{}

/// What an answer says: a step that was refused for its count passed there, a step is out of turn
/// exactly where it isn't its actor's next, and a call adds to the batches exactly what it answers.
pub fn every_answer_tells()
    ensures again { (w : Whole) → AgainPassed w }
    ensures take { (w : Whole) → TakeAgainPassed w }
    ensures turn { (w : Whole) → RefusesOutOfTurn w }
    ensures batches { (w : Whole) → BatchesGrow w }
{}

/// What each call from a sound state answers and leaves: the state stays sound, a batch is added to
/// the batches and is above all that its client had seen, and a client's seen pair is that of its
/// last batch or of a greater note. A new oracle is sound, and nobody has seen anything.
pub fn every_call_tells()
    ensures fresh { (k : Setup) → IsSetup k → IsNew (opened k) }
    ensures calls { (w : Whole) → IsSound w → EachCallTells w }
{}

/// What a whole call of an actor at rest answers, exactly when, and what it leaves: which windows,
/// words, batches and notes come, and that all else is as before. A single step answers with the
/// word that it touched.
pub fn every_whole_call_tells()
    ensures calls { (w : Whole) → IsSound w → EachWholeCallTells w }
    ensures steps { (w : Whole) → IsSound w → StepsName w }
{}
