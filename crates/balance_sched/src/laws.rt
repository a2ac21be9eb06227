ghost use Rattle.std.specs.Prelude.{◌≡◌, ◌≢◌, ◌↔◌, ◌<◌, ◌+◌, ◌-◌, ◌*◌, ℕ, true, false, None, Some, Contains, List, map};
ghost use Rattle.pd_types.specs.BeatCheck.{first_fault};
ghost use Rattle.pd_types.specs.declared.proposal.Proposal.TheVariants as proposals;
ghost use Rattle.pd_types.specs.declared.region.Peer.{Peer};
ghost use Rattle.pd_types.specs.declared.region.RegionBeat.{RegionBeat};
ghost use Rattle.store_table.specs.Entries.{is_live, is_usable};
ghost use Rattle.heartbeat.specs.Counts.{is_on, leads_on};
ghost use Rattle.op_step.specs.Peers.{peer_on};
ghost use Rattle.op_step.specs.Wishes.{may_lead};
ghost use Rattle.rule_set.specs.InForce.{rules_at};
ghost use Rattle.balance_sched.specs.declared.moves.Kind.{Kind};
ghost use Rattle.balance_sched.specs.declared.moves.Kind.TheVariants as kinds;
ghost use Rattle.balance_sched.specs.declared.moves.Move.{Move};
ghost use Rattle.balance_sched.specs.Moved.{squares_of, EvensLeaders, EvensRegions, IsMoved};
ghost use Rattle.balance_sched.specs.Moves.{done, goes_before, FitsRules, IsMoveOf, IsWide, Proposes};
ghost use Rattle.balance_sched.specs.Tables.{Tables, count_of};

/// A move evens the counts. Once its region's heartbeat, which passes its tests as each that stands
/// does, is followed by one that tells of the move as done, and all others stand as before, the
/// source has one less than before, the target one more, and each other store as many; so the sum of
/// the squares of the two counts is less.
pub fn a_move_evens_the_counts()
    ensures source { (kind : Kind) (tables : Tables) (beat : RegionBeat) (move : Move) (new : List RegionBeat) →
        first_fault beat ≡ None → IsMoveOf kind tables beat move → IsMoved kind move beat tables.held new →
        count_of kind move.from new + 1 ≡ count_of kind move.from tables.held }
    ensures target { (kind : Kind) (tables : Tables) (beat : RegionBeat) (move : Move) (new : List RegionBeat) →
        first_fault beat ≡ None → IsMoveOf kind tables beat move → IsMoved kind move beat tables.held new →
        count_of kind move.to new ≡ count_of kind move.to tables.held + 1 }
    ensures others { (kind : Kind) (tables : Tables) (beat : RegionBeat) (move : Move) (new : List RegionBeat) (store : ℕ) →
        first_fault beat ≡ None → IsMoveOf kind tables beat move → IsMoved kind move beat tables.held new →
        store ≢ move.from → store ≢ move.to → count_of kind store new ≡ count_of kind store tables.held }
    ensures squares { (kind : Kind) (tables : Tables) (beat : RegionBeat) (move : Move) (new : List RegionBeat) →
        first_fault beat ≡ None → IsMoveOf kind tables beat move → IsMoved kind move beat tables.held new →
        squares_of kind move.from move.to new < squares_of kind move.from move.to tables.held }
{}

/// A difference is wide enough exactly where one that goes from the source to the target lowers the
/// sum of the squares of the two counts.
pub fn a_wide_difference_is_evened()
    ensures wide { (source target difference : ℕ) → target + difference ≡ source → IsWide difference ↔
        ((source - 1) * (source - 1) + (target + 1) * (target + 1) < source * source + target * target) }
{}

/// What bars a move: its region has an operator, or doesn't fit, or wouldn't fit then; one of its
/// stores is silent, or the target isn't usable; what moves isn't on the source; the target has a
/// peer of the region already, or none that may lead, as the leader itself.
pub fn what_bars_a_move()
    ensures busy { (kind : Kind) (tables : Tables) (beat : RegionBeat) (move : Move) → Contains tables.busy beat.region.id → IsMoveOf kind tables beat move → ⊥ }
    ensures unfit { (kind : Kind) (tables : Tables) (beat : RegionBeat) (move : Move) → (FitsRules tables beat → ⊥) → IsMoveOf kind tables beat move → ⊥ }
    ensures breaks { (kind : Kind) (tables : Tables) (beat : RegionBeat) (move : Move) → (FitsRules tables (done kind move beat) → ⊥) → IsMoveOf kind tables beat move → ⊥ }
    ensures silent { (kind : Kind) (tables : Tables) (beat : RegionBeat) (move : Move) → is_live move.from tables.now tables.stores ≡ false → IsMoveOf kind tables beat move → ⊥ }
    ensures unheard { (kind : Kind) (tables : Tables) (beat : RegionBeat) (move : Move) → is_live move.to tables.now tables.stores ≡ false → IsMoveOf kind tables beat move → ⊥ }
    ensures unusable { (kind : Kind) (tables : Tables) (beat : RegionBeat) (move : Move) → is_usable move.to tables.now tables.stores ≡ false → IsMoveOf kind tables beat move → ⊥ }
    ensures elsewhere { (tables : Tables) (beat : RegionBeat) (move : Move) → is_on move.from beat ≡ false → IsMoveOf kinds.Regions tables beat move → ⊥ }
    ensures follower { (tables : Tables) (beat : RegionBeat) (move : Move) → leads_on move.from beat ≡ false → IsMoveOf kinds.Leaders tables beat move → ⊥ }
    ensures occupied { (tables : Tables) (beat : RegionBeat) (move : Move) → is_on move.to beat ≡ true → IsMoveOf kinds.Regions tables beat move → ⊥ }
    ensures vacant { (tables : Tables) (beat : RegionBeat) (move : Move) → peer_on move.to beat ≡ None → IsMoveOf kinds.Leaders tables beat move → ⊥ }
    ensures leading { (tables : Tables) (beat : RegionBeat) (move : Move) (peer : Peer) → peer_on move.to beat ≡ Some peer → peer.id ≡ beat.leader → IsMoveOf kinds.Leaders tables beat move → ⊥ }
    ensures unable { (tables : Tables) (beat : RegionBeat) (move : Move) (peer : Peer) → peer_on move.to beat ≡ Some peer → may_lead beat tables.stores tables.now peer ≡ false → IsMoveOf kinds.Leaders tables beat move → ⊥ }
{}

/// What is proposed in words: of regions a peer, from a store that has one to a store that has none
/// and at least two regions fewer; of leaders a leader, from its store to another with a peer of the
/// region and at least two leaders fewer.
pub fn what_is_proposed()
    ensures regions { (tables : Tables) (region from to : ℕ) → Proposes kinds.Regions tables (Some (proposals.MovePeer region from to)) → EvensRegions tables region from to }
    ensures leaders { (tables : Tables) (region to : ℕ) → Proposes kinds.Leaders tables (Some (proposals.MoveLeader region to)) → EvensLeaders tables region to }
    ensures peers { (tables : Tables) (region to : ℕ) → Proposes kinds.Regions tables (Some (proposals.MoveLeader region to)) → ⊥ }
    ensures leads { (tables : Tables) (region from to : ℕ) → Proposes kinds.Leaders tables (Some (proposals.MovePeer region from to)) → ⊥ }
    ensures drops { (kind : Kind) (tables : Tables) (region store : ℕ) → Proposes kind tables (Some (proposals.DropPeer region store)) → ⊥ }
{}

/// A region goes by the rules in force at its start key, whatever else the rules are.
pub fn a_region_goes_by_the_rules_at_its_start()
    ensures start { (one other : Tables) (beat : RegionBeat) → one.stores ≡ other.stores → one.now ≡ other.now → rules_at beat.region.start one.rules ≡ rules_at beat.region.start other.rules →
        FitsRules one beat → FitsRules other beat }
{}

/// Which of two moves goes first: that of the greater difference; of equal ones that of the lesser
/// region, then the lesser source, then the lesser target. None goes before itself.
pub fn who_goes_first()
    ensures difference { (one other : Move) → other.difference < one.difference → goes_before one other ≡ true }
    ensures region { (one other : Move) → one.difference ≡ other.difference → one.region < other.region → goes_before one other ≡ true }
    ensures source { (one other : Move) → one.difference ≡ other.difference → one.region ≡ other.region → one.from < other.from → goes_before one other ≡ true }
    ensures target { (one other : Move) → one.difference ≡ other.difference → one.region ≡ other.region → one.from ≡ other.from → one.to < other.to → goes_before one other ≡ true }
    ensures once { (one other : Move) → goes_before one other ≡ true → goes_before other one ≡ false }
{}

/// A peer's move keeps each peer's id and role, and who leads; a leader's move keeps all peers.
pub fn a_move_keeps_the_rest()
    ensures ids { (move : Move) (beat : RegionBeat) → map (λ (peer : Peer). peer.id) (done kinds.Regions move beat).region.peers ≡ map (λ (peer : Peer). peer.id) beat.region.peers }
    ensures roles { (move : Move) (beat : RegionBeat) → map (λ (peer : Peer). peer.role) (done kinds.Regions move beat).region.peers ≡ map (λ (peer : Peer). peer.role) beat.region.peers }
    ensures leader { (move : Move) (beat : RegionBeat) → (done kinds.Regions move beat).leader ≡ beat.leader }
    ensures region { (move : Move) (beat : RegionBeat) → (done kinds.Leaders move beat).region ≡ beat.region }
{}
