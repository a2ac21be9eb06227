// What a locked value tells.
ghost use Rattle.std.specs.Prelude.{◌≡◌, ◌≢◌, ◌++◌, List, [], ℕ};
ghost use Rattle.pd_turn.specs.Turns.{IsMadeBy, items_of, made_by};

/// A value that keeps a list of items, each with the number of its maker.
pub trait Tale {
    type Item;

    ghost tale: { Self → List (ℕ × Self.Item) };
}

/// A number's list is its part of the tale: it begins empty, it gains in their order the items that its
/// number adds behind a tale, and none that another number adds. Where no number was given, nobody
/// made an item.
pub fn a_list_is_its_numbers_part_of_the_tale<I>()
    ensures none { (n : ℕ) (tale : List (ℕ × I)) → tale ≡ [] → items_of n tale ≡ [] }
    ensures own { (n : ℕ) (before : List (ℕ × I)) (new : List I) →
        items_of n (before ++ made_by n new) ≡ items_of n before ++ new }
    ensures others { (n other : ℕ) (before : List (ℕ × I)) (new : List I) → n ≢ other →
        items_of n (before ++ made_by other new) ≡ items_of n before }
    ensures made { (tale : List (ℕ × I)) → IsMadeBy [] tale → tale ≡ [] }
{}
