ghost use Rattle.std.specs.Prelude.{◌≡◌, ◌≢◌, ◌<◌, ◌+◌, ◌∷◌, ◌++◌, ℕ, List, None, Some, length, option_map};
ghost use Rattle.sched_api.specs.Benches.{Drops, Seat, Seats, TakesTurn, Tells, asked_last, told, turns};
ghost use Rattle.sched_api.specs.declared.scheduler.Fate.{Fate};
ghost use Rattle.sched_api.specs.declared.scheduler.Said.{Said};
ghost use Rattle.sched_api.specs.Schedulers.{more_by_one};

/// Turns go round the list: first those from the next one on, then those before it, in its order.
pub fn turns_go_round_the_list()
    ensures round { (seats : Seats) (before behind : List Seat) → seats.list ≡ before ++ behind → length before ≡ seats.next → turns seats ≡ behind ++ before }
{}

/// A count of asks rises by one at each, and stands still at 18,446,744,073,709,551,615.
pub fn each_ask_is_counted()
    ensures one { (asks : ℕ) → asks < 18446744073709551615 → more_by_one asks ≡ asks + 1 }
    ensures greatest { more_by_one 18446744073709551615 ≡ 18446744073709551615 }
{}

/// A removal takes the first of a name: where the first of the list has it that one goes, else the
/// first stays.
pub fn the_first_of_a_name_goes()
    ensures here { (name : List ℕ) (one : Seat) (behind : List Seat) (old new : Seats) → old.list ≡ one ∷ behind → one.name ≡ name → Drops name old new → new.list ≡ behind }
    ensures later { (name : List ℕ) (one : Seat) (behind : List Seat) (old new : Seats) → old.list ≡ one ∷ behind → one.name ≢ name → Drops name old new → (left : List Seat) × (new.list ≡ one ∷ left) }
{}

/// The one asked last is the one whose turn it was last. It is told, and stays the one asked last.
pub fn the_one_asked_last_is_told()
    ensures asked { (old new : Seats) (now : ℕ) (said : Said) (turn : TakesTurn old new now said) → asked_last new ≡ Some turn.asked }
    ensures told { (fate : Fate) (old new : Seats) → Tells fate old new → asked_last new ≡ option_map (told fate) (asked_last old) }
{}

/// A removal leaves who was asked last. Nobody is the one asked last where that one was removed.
pub fn a_removal_leaves_who_was_asked_last()
    ensures stays { (name : List ℕ) (old new : Seats) (place : ℕ) (drops : Drops name old new) → old.last ≡ Some place → place ≢ length drops.list.before → asked_last new ≡ asked_last old }
    ensures gone { (name : List ℕ) (old new : Seats) (drops : Drops name old new) → old.last ≡ Some (length drops.list.before) → asked_last new ≡ None }
    ensures nobody { (name : List ℕ) (old new : Seats) → Drops name old new → old.last ≡ None → asked_last new ≡ None }
{}
