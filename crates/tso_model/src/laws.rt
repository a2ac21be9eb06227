// What the definitions give, by themselves.
ghost use Rattle.std.specs.Prelude.{◌≡◌, ◌⊎◌, ◌↔◌, ℕ, ◌+◌, ◌*◌, ◌%◌, ◌<◌, ◌≤◌, true, List, [], ◌∷◌, reverse};
ghost use mathlib.Core.Option.{some};
ghost use lib.ListN.{get_elem?};
ghost use Rattle.pd_types.specs.declared.oracle.Batch.{Batch};
ghost use Rattle.tso_model.specs.declared.entries.Claim.{Claim};
ghost use Rattle.pd_types.specs.declared.oracle.Window.{Window};
ghost use Rattle.tso_model.specs.declared.step.WordStep.{WordStep};
ghost use Rattle.tso_model.specs.declared.step.WordStep.TheVariants.{ClaimTerm, SaveEnd, ArmCount};
ghost use Rattle.tso_model.specs.declared.view.Setup.{Setup};
ghost use Rattle.tso_model.specs.declared.view.View.{View};
ghost use Rattle.tso_model.specs.Words.{AreClaims, opening_claim, packed, passes, window};
ghost use Rattle.tso_model.specs.Steps.{May, saved_window};
ghost use Rattle.tso_model.specs.Moves.{first_words, first_view, new_client};
ghost use Rattle.tso_model.specs.Plan.{end_of, past_clock, saves_for};
ghost use Rattle.tso_model.specs.Sound.{IsSetup, Sound, Keeps, KeepsParts};
ghost use Rattle.tso_model.specs.Ledger.{Recorded, KeepsLists, IsWindowList, HasAll, Gathered};
ghost use Rattle.tso_model.specs.Laws.{DriverSplitKeeps, DriverSplitKeepsParts, DriverSplitKeepsLists, ClientSplitKeeps, ClientSplitKeepsParts, ClientSplitKeepsLists, NoteSplitKeeps, NoteSplitKeepsParts, NoteSplitKeepsLists, JoinKeeps, JoinKeepsParts, JoinKeepsLists, CellOnlyRises, BeatenByAnother, LostToAnother, DrawsUnseen, DrawsInBound, DrawnInWindows, GathersParts, RisingAreEqual, SortedAreWhole, LeadBegins, TickGoes, MaySaveBelow, MayArmUpTo, IsSetupOf, CursorsInBound};

/// Each kind of step keeps the rule from any state that meets it: part A from A alone, B from A and
/// B, C from all three. And it makes of the windows and batches of the run what is said.
pub fn each_step_keeps()
    ensures rule { (k : Setup) (id : ℕ) (step : WordStep) (v : View) → May k step v → Keeps k id step v }
    ensures parts { (k : Setup) (id : ℕ) (step : WordStep) (v : View) → May k step v → KeepsParts k id step v }
    ensures lists { (k : Setup) (id : ℕ) (step : WordStep) (v : View) → May k step v → KeepsLists k id step v }
{}

/// Making gives a state that meets the rule, and splitting and joining keep it.
pub fn each_move_keeps()
    ensures made { (k : Setup) → IsSetup k → Sound k (first_words k) (first_view k ∷ []) }
    ensures driver { (k : Setup) → DriverSplitKeeps k }
    ensures client { (k : Setup) → ClientSplitKeeps k }
    ensures note { (k : Setup) → NoteSplitKeeps k }
    ensures join { (k : Setup) → JoinKeeps k }

    // Each part by itself: A from A alone, B from A and B, C from all three.
    ensures driver_parts { (k : Setup) → DriverSplitKeepsParts k }
    ensures client_parts { (k : Setup) → ClientSplitKeepsParts k }
    ensures note_parts { (k : Setup) → NoteSplitKeepsParts k }
    ensures join_parts { (k : Setup) → JoinKeepsParts k }

    // The rule with the windows and batches of the run, which begin with the opening window.
    ensures made_lists { (k : Setup) → IsSetup k →
        Recorded k (first_words k) (first_view k ∷ []) ((opening_claim k.cell).window ∷ []) [] }
    ensures driver_lists { (k : Setup) → DriverSplitKeepsLists k }
    ensures client_lists { (k : Setup) → ClientSplitKeepsLists k }
    ensures note_lists { (k : Setup) → NoteSplitKeepsLists k }
    ensures join_lists { (k : Setup) → JoinKeepsLists k }
{}

/// What the number that a step finds tells its actor.
pub fn each_step_learns()
    ensures cell { (k : Setup) → CellOnlyRises k }
    ensures beaten { (k : Setup) → BeatenByAnother k }
    ensures lost { (k : Setup) → LostToAnother k }
    ensures unseen { (k : Setup) → DrawsUnseen k }
    ensures bound { (k : Setup) → DrawsInBound k }
{}

/// What the whole run's lists are, and that they can be told from one view that has all numbers.
pub fn the_lists()
    ensures windows { (first c : Claim) (past : List Claim) →
        AreClaims first c past → IsWindowList first (reverse (c ∷ past)) }
    ensures draws { (k : Setup) → DrawnInWindows k }
    ensures gathered { (k : Setup) (words : List ℕ) (views : List View) (id : ℕ) (v : View) →
        Sound k words views → get_elem? views id ≡ some v → HasAll k v → Gathered k v }
    ensures gathered_parts { (k : Setup) → GathersParts k }
    ensures sorted_windows { RisingAreEqual (λ (c : Claim). c.window.term) }
    ensures sorted_batches { RisingAreEqual (λ (b : Batch). b.last) }
    ensures sorted { (k : Setup) → SortedAreWhole k }
{}

/// Where a lead and a tick go, in the words of PD's documentation ("Timestamp Oracle") and of
/// docs/DEFINITIONS.md.
pub fn the_plan()
    ensures lead { (saved now : ℕ) → LeadBegins saved now }
    ensures tick { (cursor hi now : ℕ) → TickGoes cursor hi now }
    ensures saves { (next hi : ℕ) → (saves_for next hi ≡ true) ↔ (hi ≤ next + 1) }
{}

/// The numbers of the oracle, in figures: a window is saved 3,000 milliseconds ahead, a millisecond
/// has 262,144 timestamps, terms end at 262,143, saved times below 2^45 milliseconds, and a cursor
/// stands at most 64 milliseconds past the saved end.
pub fn the_numbers()
    ensures ahead { (next : ℕ) → end_of next ≡ next + 3000 }
    ensures window { (next : ℕ) (w : Window) → w.lo ≡ w.hi → w.hi ≤ next →
        saved_window (end_of next) w ≡ window w.term w.driver next (next + 3000) }
    ensures clock { (next : ℕ) → (past_clock next ≡ true) ↔ (35184372088832 ≤ next + 3000) }
    ensures packed { (time term : ℕ) → packed time term ≡ time * 262144 + term }
    ensures passes { (at hi n : ℕ) →
        (passes at hi n ≡ true) ↔ ((hi * 262144 ≤ at + n) ⊎ (262144 ≤ at % 262144 + n)) }
    ensures terms { (k : Setup) (v : View) →
        May k ClaimTerm v ↔ ((0 < v.driver) × (v.cell.term < 262143)) }
    ensures times { (k : Setup) (hi : ℕ) (v : View) → May k (SaveEnd hi) v ↔ MaySaveBelow hi v }
    ensures counts { (k : Setup) (n : ℕ) (v : View) → May k (ArmCount n) v ↔ MayArmUpTo n v }
    ensures quota { (v : View) → (new_client v).quota ≡ 262144 }
    ensures actors { (k : Setup) → IsSetup k ↔ IsSetupOf k }
    ensures cursors { (k : Setup) → CursorsInBound k }
{}
