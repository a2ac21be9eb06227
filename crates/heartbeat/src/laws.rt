ghost use Rattle.std.specs.Prelude.{◌≡◌, ◌↔◌, ◌<◌, ◌≤◌, ◌∷◌, ℕ, List, [], true, false, Some, None, length};
ghost use Rattle.std.specs.List.{Any};
ghost use Rattle.pd_types.specs.BeatCheck.{first_fault};
ghost use Rattle.pd_types.specs.declared.beat.BeatFault.{BeatFault};
ghost use Rattle.pd_types.specs.declared.region.Epoch.{Epoch};
ghost use Rattle.pd_types.specs.declared.region.Peer.{Peer};
ghost use Rattle.pd_types.specs.declared.region.RegionBeat.{RegionBeat};
ghost use Rattle.region_tree.specs.Stale.{ids_of, put_beat, removed_by, stale_by};
ghost use Rattle.heartbeat.specs.Counts.{is_on, leader_count, leads_on, region_count};
ghost use Rattle.heartbeat.specs.Intakes.{intake_of, left_by};
ghost use Rattle.heartbeat.specs.declared.intake.Intake.TheVariants as intakes;

/// A heartbeat is bad by itself, whatever stands; else stale, whatever the limit; else full where
/// more than 65,536 regions would stand; else accepted, and it stands.
pub fn the_first_reason_is_answered()
    ensures bad { (beat : RegionBeat) (held : List RegionBeat) (fault : BeatFault) →
        first_fault beat ≡ Some fault → intake_of beat held ≡ intakes.Bad fault }
    ensures stale { (beat : RegionBeat) (held : List RegionBeat) (kept : Epoch) →
        first_fault beat ≡ None → stale_by beat held ≡ Some kept →
        intake_of beat held ≡ intakes.Stale kept }
    ensures full { (beat : RegionBeat) (held : List RegionBeat) →
        first_fault beat ≡ None → stale_by beat held ≡ None →
        65536 < length (put_beat beat held) → intake_of beat held ≡ intakes.Full }
    ensures accepted { (beat : RegionBeat) (held : List RegionBeat) →
        first_fault beat ≡ None → stale_by beat held ≡ None →
        length (put_beat beat held) ≤ 65536 →
        intake_of beat held ≡ intakes.Accepted (ids_of (removed_by beat held)) }
    ensures stands { (beat : RegionBeat) (held : List RegionBeat) (removed : List ℕ) →
        left_by (intakes.Accepted removed) beat held ≡ put_beat beat held }
{}

/// A region counts for a store where a peer is on it, and its leader where the peer whose id is the
/// leader's is.
pub fn a_region_counts_by_its_peers()
    ensures region { (store : ℕ) (beat : RegionBeat) →
        (is_on store beat ≡ true) ↔ Any (λ peer. peer.store ≡ store) beat.region.peers }
    ensures leader { (store : ℕ) (beat : RegionBeat) →
        (leads_on store beat ≡ true)
        ↔ Any (λ peer. (peer.id ≡ beat.leader) × (peer.store ≡ store)) beat.region.peers }
{}

/// Of one region, a store has one where the region counts for it, and one leader where its leader
/// does.
pub fn regions_and_leaders_are_counted()
    ensures region { (store : ℕ) (beat : RegionBeat) →
        is_on store beat ≡ true → region_count store (beat ∷ []) ≡ 1 }
    ensures elsewhere { (store : ℕ) (beat : RegionBeat) →
        is_on store beat ≡ false → region_count store (beat ∷ []) ≡ 0 }
    ensures leader { (store : ℕ) (beat : RegionBeat) →
        leads_on store beat ≡ true → leader_count store (beat ∷ []) ≡ 1 }
    ensures follower { (store : ℕ) (beat : RegionBeat) →
        leads_on store beat ≡ false → leader_count store (beat ∷ []) ≡ 0 }
{}
