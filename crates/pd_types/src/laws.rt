// What the definitions give, by themselves.
ghost use Rattle.std.specs.Prelude.{◌≡◌, ◌↔◌, ◌<◌, ℕ, true, List, ◌∷◌, ◌++◌};
ghost use Rattle.pd_types.specs.Keys.{is_below};
ghost use Rattle.pd_types.specs.Roles.{is_learner, is_voter};
ghost use Rattle.pd_types.specs.declared.region.Role.{Role};
ghost use Rattle.pd_types.specs.declared.region.Role.TheVariants.{Learner, Voter};

/// Keys are in the order of their bytes: a key is below each longer one that begins with it, and,
/// where two keys first differ, the one with the lesser byte is below.
#[tactic(auto, using(crate::proofs::KeyLemmas::below_longer, crate::proofs::KeyLemmas::below_lesser))]
pub fn keys_go_by_their_bytes()
    ensures longer { (key rest : List ℕ) (byte : ℕ) → is_below key (key ++ byte ∷ rest) ≡ true }
    ensures lesser { (key left right : List ℕ) (a b : ℕ) → a < b → is_below (key ++ a ∷ left) (key ++ b ∷ right) ≡ true }
{}

/// Voters vote, learners learn, and the two sides of a joint membership do neither.
#[tactic(auto, using(crate::proofs::RoleLemmas::votes, crate::proofs::RoleLemmas::learns))]
pub fn each_role_votes_or_learns_or_neither()
    ensures voter { (role : Role) → (is_voter role ≡ true) ↔ (role ≡ Voter) }
    ensures learner { (role : Role) → (is_learner role ≡ true) ↔ (role ≡ Learner) }
{}
