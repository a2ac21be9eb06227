// What the definitions give, by themselves.
ghost use Rattle.std.specs.Prelude.{◌≡◌, ◌+◌, ◌*◌, ◌/◌, ◌<◌, ◌≤◌, ℕ, List, slice_index};
ghost use mathlib.Core.Option.{some};
ghost use lib.ListN.{get_elem?};
ghost use Rattle.pd_types.specs.declared.stamp.TheConstants.{LOGICAL};
ghost use Rattle.tso_model.specs.declared.view.Setup.{Setup};
ghost use Rattle.tso_model.specs.declared.view.View.{View};
ghost use Rattle.tso_model.specs.Moves.{numbers_from};
ghost use Rattle.tso_model.specs.Sound.{Sound};
ghost use Rattle.tso_model.specs.Steps.{HasHand, hand};
ghost use Rattle.tso_model.specs.Words.{cursor_at};
ghost use Rattle.tso_board.specs.Ledger.{HasEach};

/// The numbers from 1 on, in their order, are all of them: so a crew whose seats and passes came
/// back in their order is whole.
pub fn numbers_in_order_are_all()
    ensures each { (n : ℕ) → HasEach n (numbers_from 1 n) }
{}

/// A draw leaves the cursor at most 64 milliseconds past the end that is saved at that moment, however
/// many draws were refused before: so it is in each state that the rule of the words allows.
pub fn each_draw_stays_in_bound()
    ensures bound { (k : Setup) (words : List ℕ) (views : List View) (id : ℕ) (v : View) → Sound k words views → get_elem? views id ≡ some v → 0 < v.client → HasHand v → slice_index words (cursor_at (hand v).driver) + v.armed ≤ (slice_index words 0 / LOGICAL + 64) * LOGICAL }
{}
