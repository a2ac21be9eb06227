ghost use Rattle.std.specs.Prelude.{◌≡◌, ◌≢◌, ◌↔◌, ◌≤◌, ◌<◌, ◌∷◌, ◌++◌, ℕ, true, false, List, [], length, map, sum, None, Contains, All, Any, IsTrue};
ghost use Rattle.pd_types.specs.BeatCheck.{first_fault};
ghost use Rattle.pd_types.specs.declared.region.Peer.{Peer};
ghost use Rattle.pd_types.specs.declared.region.RegionBeat.{RegionBeat};
ghost use Rattle.pd_types.specs.declared.region.Role.TheVariants as roles;
ghost use Rattle.pd_types.specs.declared.rule.Rule.{Rule};
ghost use Rattle.store_table.specs.declared.entry.StoreEntry.{StoreEntry};
ghost use Rattle.store_table.specs.Entries.{is_live, is_usable};
ghost use Rattle.heartbeat.specs.Counts.{region_count};
ghost use Rattle.op_step.specs.Carried.{HasNew, MayTake, left_by};
ghost use Rattle.op_step.specs.Peers.{has_peer, has_store, is_target};
ghost use Rattle.op_step.specs.Wishes.{may_lead};
ghost use Rattle.rule_fit.specs.Ids.{AreApart};
ghost use Rattle.rule_fit.specs.Isolation.{isolation_score};
ghost use Rattle.rule_fit.specs.Suits.{counts_of, labels_of, satisfies_all};
ghost use Rattle.rule_set.specs.InForce.{rules_at};
ghost use Rattle.rule_checker.specs.Candidates.{IsCandidate, after_all, passes, pool, steps_of};
ghost use Rattle.rule_checker.specs.Measure.{HasNumber};
ghost use Rattle.rule_checker.specs.Plan.{IsVerdict};
ghost use Rattle.rule_checker.specs.Ranks.{is_before, locations_for, place_of, score_of};
ghost use Rattle.rule_checker.specs.Repairs.{AreRepairs};
ghost use Rattle.rule_checker.specs.Same.{SaysSame};
ghost use Rattle.rule_checker.specs.declared.class.Class.{Class};
ghost use Rattle.rule_checker.specs.declared.class.Class.TheVariants as classes;
ghost use Rattle.rule_checker.specs.declared.class.Ranked.{Ranked};
ghost use Rattle.rule_checker.specs.declared.verdict.Verdict.{Verdict};

/// A region has one verdict, certificates aside.
pub fn one_verdict()
    ensures one { (beat : RegionBeat) (set : List Rule) (stores : List StoreEntry) (held : List RegionBeat) (now : ℕ)
        (one other : Verdict) → AreApart beat.region.peers →
        IsVerdict beat set stores held now one → IsVerdict beat set stores held now other → SaysSame one other }
{}

/// A heartbeat that passes `check_beat` is one that `check` may be called with.
pub fn checked_beat()
    ensures few { (beat : RegionBeat) → first_fault beat ≡ None → length beat.region.peers ≤ 15 }
    ensures apart { (beat : RegionBeat) → first_fault beat ≡ None → AreApart beat.region.peers }
{}

/// Plans come to an end: while stores, rules and clock stay, and each plan is carried out, there are
/// no more of them than the region's misfit number says, so that after these it fits or has no plan.
pub fn plans_come_to_an_end()
    ensures { (set : List Rule) (stores : List StoreEntry) (now : ℕ) (beat : RegionBeat) (later : List RegionBeat)
        (from : ℕ) → HasNumber beat (rules_at beat.region.start set) stores now from →
        AreRepairs set stores now beat later → length later ≤ from }
{}

/// Who is a candidate: a learner that is a target is promoted; another voter that is a target takes
/// the lead; a live and usable store without a peer of the region, which has fewer than 15, gets a
/// new one; and a peer goes where there are more peers than the rules ask for, the leader only where
/// another peer can lead. There is none where no rule is in force.
pub fn who_is_a_candidate()
    ensures promote { (beat : RegionBeat) (rules : List Rule) (stores : List StoreEntry) (now : ℕ) (peer : Peer) →
        IsTrue (passes classes.Promote beat rules stores now peer) ↔
        ((peer.role ≡ roles.Learner) × IsTrue (is_target beat stores now peer)) }
    ensures transfer { (beat : RegionBeat) (rules : List Rule) (stores : List StoreEntry) (now : ℕ) (peer : Peer) →
        IsTrue (passes classes.Transfer beat rules stores now peer) ↔
        ((peer.role ≡ roles.Voter) × (peer.id ≢ beat.leader) × IsTrue (is_target beat stores now peer)) }
    ensures voter { (beat : RegionBeat) (rules : List Rule) (stores : List StoreEntry) (now : ℕ) (peer : Peer) →
        IsTrue (passes classes.AddVoter beat rules stores now peer) ↔
        (IsTrue (is_live peer.store now stores) × IsTrue (is_usable peer.store now stores) ×
        All (λ (one : Peer). one.store ≢ peer.store) beat.region.peers × (length beat.region.peers < 15)) }
    ensures learner { (beat : RegionBeat) (rules : List Rule) (stores : List StoreEntry) (now : ℕ) (peer : Peer) →
        passes classes.AddLearner beat rules stores now peer ≡ passes classes.AddVoter beat rules stores now peer }
    ensures too_many { (beat : RegionBeat) (rules : List Rule) (stores : List StoreEntry) (now : ℕ) (peer : Peer) →
        IsTrue (passes classes.Remove beat rules stores now peer) →
        sum (counts_of rules) < length beat.region.peers }
    ensures goes { (beat : RegionBeat) (rules : List Rule) (stores : List StoreEntry) (now : ℕ) (peer : Peer) →
        sum (counts_of rules) < length beat.region.peers → peer.id ≢ beat.leader →
        IsTrue (passes classes.Remove beat rules stores now peer) }
    ensures leader { (beat : RegionBeat) (rules : List Rule) (stores : List StoreEntry) (now : ℕ) (peer : Peer) →
        sum (counts_of rules) < length beat.region.peers → peer.id ≡ beat.leader →
        (IsTrue (passes classes.Remove beat rules stores now peer) ↔
        Any (λ (one : Peer). IsTrue (may_lead beat stores now one)) beat.region.peers) }
    ensures unruled { (class : Class) (beat : RegionBeat) (stores : List StoreEntry) (now : ℕ) (peer : Peer) →
        IsCandidate class beat [] stores now peer → ⊥ }
{}

/// The classes in their order: a learner is promoted before the lead moves, then a voter is added,
/// then a learner, and a peer goes last.
pub fn the_order_of_classes()
    ensures promote { place_of classes.Promote ≡ 1 }
    ensures transfer { place_of classes.Transfer ≡ 2 }
    ensures voter { place_of classes.AddVoter ≡ 3 }
    ensures learner { place_of classes.AddLearner ≡ 4 }
    ensures remove { place_of classes.Remove ≡ 5 }
{}

/// Of two candidates of a class the one that leaves the lesser misfit number goes first. Of equal
/// ones it is the peer of the lesser id; among new peers the one that is farther from the others, then
/// the store with fewer regions, then the lesser store; and among those that go the one that is nearer
/// to the others, then the lesser id.
pub fn who_goes_first()
    ensures number { (class : Class) (held : List RegionBeat) (one other : Ranked) →
        one.to < other.to → is_before class held one other ≡ true }
    ensures promote { (held : List RegionBeat) (one other : Ranked) → one.to ≡ other.to →
        one.peer.id < other.peer.id → is_before classes.Promote held one other ≡ true }
    ensures transfer { (held : List RegionBeat) (one other : Ranked) → one.to ≡ other.to →
        one.peer.id < other.peer.id → is_before classes.Transfer held one other ≡ true }
    ensures far { (held : List RegionBeat) (one other : Ranked) → one.to ≡ other.to →
        other.score < one.score → is_before classes.AddVoter held one other ≡ true }
    ensures fewer { (held : List RegionBeat) (one other : Ranked) → one.to ≡ other.to →
        one.score ≡ other.score →
        region_count one.peer.store held < region_count other.peer.store held →
        is_before classes.AddVoter held one other ≡ true }
    ensures lesser { (held : List RegionBeat) (one other : Ranked) → one.to ≡ other.to →
        one.score ≡ other.score →
        region_count one.peer.store held ≡ region_count other.peer.store held →
        one.peer.store < other.peer.store → is_before classes.AddVoter held one other ≡ true }
    ensures learner { (held : List RegionBeat) (one other : Ranked) →
        is_before classes.AddLearner held one other ≡ is_before classes.AddVoter held one other }
    ensures near { (held : List RegionBeat) (one other : Ranked) → one.to ≡ other.to →
        one.score < other.score → is_before classes.Remove held one other ≡ true }
    ensures remove { (held : List RegionBeat) (one other : Ranked) → one.to ≡ other.to →
        one.score ≡ other.score → one.peer.id < other.peer.id →
        is_before classes.Remove held one other ≡ true }
{}

/// Who is looked at: each peer of the region, and for each known store a new learner there, of id 0.
pub fn every_peer_and_store_is_looked_at()
    ensures promote { (beat : RegionBeat) (stores : List StoreEntry) →
        pool classes.Promote beat stores ≡ beat.region.peers }
    ensures transfer { (beat : RegionBeat) (stores : List StoreEntry) →
        pool classes.Transfer beat stores ≡ beat.region.peers }
    ensures remove { (beat : RegionBeat) (stores : List StoreEntry) →
        pool classes.Remove beat stores ≡ beat.region.peers }
    ensures voter { (beat : RegionBeat) (stores : List StoreEntry) (entry : StoreEntry) →
        Contains stores entry → Contains (pool classes.AddVoter beat stores)
        (record { id = 0; store = entry.store.id; role = roles.Learner }) }
    ensures learner { (beat : RegionBeat) (stores : List StoreEntry) →
        pool classes.AddLearner beat stores ≡ pool classes.AddVoter beat stores }
{}

/// What a candidate's steps leave: the promoted peer as a voter; the new leader; a voter or a learner
/// on the store, under whatever id it is given; and no more the peer that goes, nor its lead.
pub fn a_plan_does_what_its_class_says()
    ensures promote { (beat : RegionBeat) (stores : List StoreEntry) (now : ℕ) (peer : Peer) →
        Contains beat.region.peers peer →
        Contains (after_all (steps_of classes.Promote beat stores now peer) beat).region.peers
        (record { id = peer.id; store = peer.store; role = roles.Voter }) }
    ensures transfer { (beat : RegionBeat) (stores : List StoreEntry) (now : ℕ) (peer : Peer) →
        Contains beat.region.peers peer →
        (after_all (steps_of classes.Transfer beat stores now peer) beat).leader ≡ peer.id }
    ensures voter { (beat : RegionBeat) (stores : List StoreEntry) (now id : ℕ) (peer : Peer) →
        MayTake id beat → peer.id ≡ 0 → has_store peer.store beat ≡ false →
        HasNew id peer.store roles.Voter
        (left_by id (steps_of classes.AddVoter beat stores now peer) beat) }
    ensures learner { (beat : RegionBeat) (stores : List StoreEntry) (now id : ℕ) (peer : Peer) →
        MayTake id beat → peer.id ≡ 0 → has_store peer.store beat ≡ false →
        HasNew id peer.store roles.Learner
        (left_by id (steps_of classes.AddLearner beat stores now peer) beat) }
    ensures remove { (beat : RegionBeat) (stores : List StoreEntry) (now : ℕ) (peer : Peer) →
        has_peer peer.id peer.store
        (after_all (steps_of classes.Remove beat stores now peer) beat) ≡ false }
    ensures leader { (beat : RegionBeat) (stores : List StoreEntry) (now : ℕ) (peer : Peer) →
        Any (λ (one : Peer). IsTrue (may_lead beat stores now one)) beat.region.peers →
        peer.id ≡ beat.leader →
        (after_all (steps_of classes.Remove beat stores now peer) beat).leader ≢ peer.id }
{}

/// Which location labels count for a store: those of the first rule whose constraints it satisfies.
pub fn the_first_rule_gives_the_labels()
    ensures none { (stores : List StoreEntry) (store : ℕ) → locations_for [] stores store ≡ [] }
    ensures first { (rule : Rule) (rules : List Rule) (stores : List StoreEntry) (store : ℕ) →
        satisfies_all (labels_of store stores) rule.constraints ≡ true →
        locations_for (rule ∷ rules) stores store ≡ rule.locations }
    ensures later { (rule : Rule) (rules : List Rule) (stores : List StoreEntry) (store : ℕ) →
        satisfies_all (labels_of store stores) rule.constraints ≡ false →
        locations_for (rule ∷ rules) stores store ≡ locations_for rules stores store }
{}

/// Beside which stores a candidate's isolation counts: for a new peer those of all the region's
/// peers; for one that goes those of the others, and not its own.
pub fn isolation_counts_the_other_stores()
    ensures voter { (beat : RegionBeat) (rules : List Rule) (stores : List StoreEntry) (peer : Peer) →
        score_of classes.AddVoter beat rules stores peer ≡
        isolation_score stores peer.store (map (λ (one : Peer). one.store) beat.region.peers)
        (locations_for rules stores peer.store) }
    ensures learner { (beat : RegionBeat) (rules : List Rule) (stores : List StoreEntry) (peer : Peer) →
        score_of classes.AddLearner beat rules stores peer ≡ score_of classes.AddVoter beat rules stores peer }
    ensures goes { (beat : RegionBeat) (rules : List Rule) (stores : List StoreEntry) (peer : Peer)
        (before behind : List Peer) → beat.region.peers ≡ before ++ peer ∷ behind →
        All (λ (one : Peer). one.id ≢ peer.id) (before ++ behind) →
        score_of classes.Remove beat rules stores peer ≡
        isolation_score stores peer.store (map (λ (one : Peer). one.store) (before ++ behind))
        (locations_for rules stores peer.store) }
{}
