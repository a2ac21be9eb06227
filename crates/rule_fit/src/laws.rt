ghost use Rattle.std.specs.Prelude.{Bool, ◌≡◌, ◌≢◌, ◌↔◌, ◌+◌, ◌-◌, ◌<◌, ℕ, List, [], ◌∷◌, length, true, false, nat_eq, not, sum, All, Contains};
ghost use Rattle.pd_types.specs.declared.region.Peer.{Peer};
ghost use Rattle.pd_types.specs.declared.region.Role.{Role};
ghost use Rattle.pd_types.specs.declared.region.Role.TheVariants.{Voter, Learner};
ghost use Rattle.pd_types.specs.declared.rule.Constraint.{Constraint};
ghost use Rattle.pd_types.specs.declared.rule.Op.TheVariants as ops;
ghost use Rattle.pd_types.specs.declared.rule.Rule.{Rule};
ghost use Rattle.pd_types.specs.declared.rule.RuleRole.TheVariants as asks;
ghost use Rattle.pd_types.specs.declared.store.Label.{Label};
ghost use Rattle.store_table.specs.declared.entry.StoreEntry.{StoreEntry};
ghost use Rattle.store_table.specs.Entries.{is_usable};
ghost use Rattle.rule_fit.specs.Isolation.{differ_in, isolation_score, score_beside};
ghost use Rattle.rule_fit.specs.Suits.{is_among, labels_of, passes, peer_suits, role_suits, satisfies, satisfies_all, value_of};
ghost use Rattle.rule_fit.specs.Assignment.{Fits};
ghost use Rattle.rule_fit.specs.Certificate.{Certifies, IsMisfitNumber};
ghost use Rattle.rule_fit.specs.Fit.{IsOfItsKind};
ghost use Rattle.rule_fit.specs.Room.{HasRoom};
ghost use Rattle.rule_fit.specs.Ways.{misfit_number};
ghost use Rattle.rule_fit.specs.declared.answer.Certificate.{Certificate};
ghost use Rattle.rule_fit.specs.declared.answer.Certificate.TheVariants.{Totals, Peers};

/// A certificate that holds, whoever made it, shows that there is no fit.
pub fn certificate_refutes()
    ensures refutes { (test : ℕ → ℕ → Bool) (peers : List Peer) (counts : List ℕ) (one : Certificate) → Certifies test peers counts one → Fits test (length peers) counts → ⊥ }
{}

/// There is one misfit number, and it is 0 exactly where there is a fit. Without peers it is the sum
/// of the counts, and without rules the number of peers. It is what is missing in the best of all ways
/// to give the peers rules.
pub fn one_misfit_number()
    ensures one { (test : ℕ → ℕ → Bool) (peers : ℕ) (counts : List ℕ) (m n : ℕ) → IsMisfitNumber test peers counts m → IsMisfitNumber test peers counts n → m ≡ n }
    ensures zero_fits { (test : ℕ → ℕ → Bool) (peers : ℕ) (counts : List ℕ) (n : ℕ) → IsMisfitNumber test peers counts n → n ≡ 0 → Fits test peers counts }
    ensures fits_zero { (test : ℕ → ℕ → Bool) (peers : ℕ) (counts : List ℕ) (n : ℕ) → IsMisfitNumber test peers counts n → Fits test peers counts → n ≡ 0 }
    ensures no_peers { (test : ℕ → ℕ → Bool) (counts : List ℕ) (n : ℕ) → IsMisfitNumber test 0 counts n → n ≡ sum counts }
    ensures no_rules { (test : ℕ → ℕ → Bool) (peers n : ℕ) → IsMisfitNumber test peers [] n → n ≡ peers }
    ensures ways { (test : ℕ → ℕ → Bool) (peers : ℕ) (counts : List ℕ) (n : ℕ) → IsMisfitNumber test peers counts n ↔ (n ≡ misfit_number test peers counts) }
{}

/// The certificate of a misfit: the totals where they differ, and peers only where they don't.
pub fn totals_come_first()
    ensures totals { (peers : List Peer) (counts : List ℕ) (total many : ℕ) →
        IsOfItsKind peers counts (Totals total many) →
        (total ≡ sum counts) × (many ≡ length peers) × (sum counts ≢ length peers) }
    ensures peers { (peers : List Peer) (counts ids : List ℕ) →
        IsOfItsKind peers counts (Peers ids) → sum counts ≡ length peers }
{}

/// What the four operators ask of a label's value, of which the empty one stands for none.
pub fn notin_is_the_opposite_of_in()
    ensures some { (value : List ℕ) (values : List (List ℕ)) →
        (passes ops.Exists value values ≡ true) ↔ (value ≢ []) }
    ensures none { (value : List ℕ) (values : List (List ℕ)) →
        passes ops.NotExists value values ≡ not (passes ops.Exists value values) }
    ensures absent { (values : List (List ℕ)) → passes ops.In [] values ≡ false }
    ensures listed { (value : List ℕ) (values : List (List ℕ)) → value ≢ [] →
        passes ops.In value values ≡ is_among value values }
    ensures others { (value : List ℕ) (values : List (List ℕ)) →
        passes ops.NotIn value values ≡ not (passes ops.In value values) }
{}

/// What a rule's role asks of a peer's, and that a peer on a store that isn't usable suits no rule.
pub fn a_follower_is_a_voter_that_does_not_lead()
    ensures voter { (role : Role) (leads : Bool) →
        (role_suits asks.Voter role leads ≡ true) ↔ (role ≡ Voter) }
    ensures leader { (role : Role) (leads : Bool) →
        (role_suits asks.Leader role leads ≡ true) ↔ (leads ≡ true) }
    ensures follower { (role : Role) (leads : Bool) →
        (role_suits asks.Follower role leads ≡ true) ↔ ((role ≡ Voter) × (leads ≡ false)) }
    ensures learner { (role : Role) (leads : Bool) →
        (role_suits asks.Learner role leads ≡ true) ↔ (role ≡ Learner) }
    ensures silent { (leader now : ℕ) (stores : List StoreEntry) (peer : Peer) (rule : Rule) →
        is_usable peer.store now stores ≡ false →
        peer_suits leader stores now peer rule ≡ false }
{}

/// A peer suits a rule where its store is usable and satisfies all constraints of the rule, and its
/// role suits; where one of these fails it suits no rule.
pub fn a_peer_suits_by_its_store_and_its_role()
    ensures suits { (leader now : ℕ) (stores : List StoreEntry) (peer : Peer) (rule : Rule) →
        is_usable peer.store now stores ≡ true →
        satisfies_all (labels_of peer.store stores) rule.constraints ≡ true →
        role_suits rule.role peer.role (nat_eq peer.id leader) ≡ true →
        peer_suits leader stores now peer rule ≡ true }
    ensures constraints { (leader now : ℕ) (stores : List StoreEntry) (peer : Peer) (rule : Rule) →
        satisfies_all (labels_of peer.store stores) rule.constraints ≡ false →
        peer_suits leader stores now peer rule ≡ false }
    ensures role { (leader now : ℕ) (stores : List StoreEntry) (peer : Peer) (rule : Rule) →
        role_suits rule.role peer.role (nat_eq peer.id leader) ≡ false →
        peer_suits leader stores now peer rule ≡ false }
{}

/// Of two labels the first weighs 100 times the second. Stores that differ in no label are worth
/// nothing, and the others are added up.
pub fn the_first_label_weighs_most()
    ensures first { (stores : List StoreEntry) (one other : ℕ) (label last : List ℕ) →
        differ_in stores one other label ≡ true →
        score_beside stores one other (label ∷ last ∷ []) ≡ 100 }
    ensures second { (stores : List StoreEntry) (one other : ℕ) (label last : List ℕ) →
        differ_in stores one other label ≡ false → differ_in stores one other last ≡ true →
        score_beside stores one other (label ∷ last ∷ []) ≡ 1 }
    ensures none { (stores : List StoreEntry) (one other : ℕ) (labels : List (List ℕ)) →
        All (λ (label : List ℕ). differ_in stores one other label ≡ false) labels →
        score_beside stores one other labels ≡ 0 }
    ensures sum { (stores : List StoreEntry) (one other last : ℕ) (labels : List (List ℕ)) →
        isolation_score stores one (other ∷ last ∷ []) labels ≡
        score_beside stores one other labels + score_beside stores one last labels }
{}

/// A store's labels satisfy a rule's constraints where they satisfy each of them; a label that the
/// store lacks has the empty value, and of two labels with one key the first counts.
pub fn each_constraint_is_asked()
    ensures fails { (labels : List Label) (list : List Constraint) (one : Constraint) →
        Contains list one → satisfies labels one ≡ false → satisfies_all labels list ≡ false }
    ensures all { (labels : List Label) (list : List Constraint) →
        All (λ (one : Constraint). satisfies labels one ≡ true) list →
        satisfies_all labels list ≡ true }
    ensures absent { (key : List ℕ) → value_of key [] ≡ [] }
    ensures first { (label : Label) (labels : List Label) → value_of label.key (label ∷ labels) ≡ label.value }
    ensures behind { (key : List ℕ) (label : Label) (labels : List Label) → label.key ≢ key →
        value_of key (label ∷ labels) ≡ value_of key labels }
{}

/// One peer more, beside peers that suit what they suited, lowers the misfit number by one where it
/// suits a rule that has room, and lowers it only there.
pub fn a_rule_with_room_takes_one_peer_more()
    ensures lowers { (test more : ℕ → ℕ → Bool) (peers : ℕ) (counts : List ℕ) (rule n : ℕ) →
        ((p r : ℕ) → p < peers → more p r ≡ test p r) →
        IsMisfitNumber test peers counts n → HasRoom test peers counts rule →
        more peers rule ≡ true → IsMisfitNumber more (peers + 1) counts (n - 1) × (0 < n) }
    ensures only { (test more : ℕ → ℕ → Bool) (peers : ℕ) (counts : List ℕ) (n m : ℕ) →
        ((p r : ℕ) → p < peers → more p r ≡ test p r) →
        IsMisfitNumber test peers counts n → IsMisfitNumber more (peers + 1) counts m → m < n →
        (rule : ℕ) × HasRoom test peers counts rule × (more peers rule ≡ true) }
{}
