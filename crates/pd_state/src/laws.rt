ghost use Rattle.std.specs.Prelude.{◌≡◌, ◌≢◌, ◌<◌, ◌≤◌, ◌++◌, ◌∷◌, ℕ, List, [], Option, true, false, Some, None, Ok, Err, IfSome, All, codes, length, reverse};
ghost use Rattle.std.specs.List.{Any};
ghost use Rattle.pd_types.specs.declared.region.RegionBeat.{RegionBeat};
ghost use Rattle.pd_types.specs.declared.request.Request.TheVariants as ask;
ghost use Rattle.pd_types.specs.declared.rule.Rule.{Rule};
ghost use Rattle.pd_types.specs.declared.store.Label.{Label};
ghost use Rattle.pd_types.specs.declared.store.StoreRec.{StoreRec};
ghost use Rattle.pd_types.specs.declared.store.StoreState.{StoreState};
ghost use Rattle.pd_types.specs.declared.store.StoreState.TheVariants as states;
ghost use Rattle.pd_types.specs.declared.beat.BeatFault.{BeatFault};
ghost use Rattle.pd_types.specs.declared.region.Epoch.{Epoch};
ghost use Rattle.heartbeat.specs.declared.intake.Intake.TheVariants as intakes;
ghost use Rattle.op_control.specs.declared.turn.Dispatch.{Dispatch};
ghost use Rattle.region_tree.specs.Standing.{IsTable};
ghost use Rattle.meta_store.specs.declared.record.Cell.{Cell};
ghost use Rattle.meta_store.specs.declared.record.MetaAnswer.{MetaAnswer};
ghost use Rattle.meta_store.specs.declared.record.MetaCall.{MetaCall};
ghost use Rattle.meta_store.specs.declared.record.MetaCall.TheVariants as calls;
ghost use Rattle.meta_store.specs.declared.record.MetaVerdict.TheVariants as verdicts;
ghost use Rattle.meta_store.specs.Asked.{AreAsked};
ghost use Rattle.meta_store.specs.Cells.{cell_at, revision_in};
ghost use Rattle.meta_store.specs.Doors.{answer_of};
ghost use Rattle.meta_store.specs.Known.{known_revision};
ghost use Rattle.meta_store.specs.Stores.{IsStore, store_bytes, store_key};
ghost use Rattle.store_table.specs.declared.entry.StoreEntry.{StoreEntry};
ghost use Rattle.store_table.specs.Entries.{entry_at, state_at};
ghost use Rattle.store_table.specs.Live.{later};
ghost use Rattle.rule_set.specs.Changes.{default_rule};
ghost use Rattle.rule_text.specs.declared.fault.RuleFault.{RuleFault};
ghost use Rattle.rule_text.specs.declared.fault.RuleFault.TheVariants.{NoMemory};
ghost use Rattle.rule_text.specs.Tests.{Means, RefusedText};
ghost use Rattle.sched_api.specs.declared.scheduler.Said.{Said};
ghost use Rattle.pd_state.specs.Calls.{AreCalls, next_call};
ghost use Rattle.pd_state.specs.Ctl.{resigns};
ghost use Rattle.pd_state.specs.HandedOut.{or_default, rules_told, store_in, stores_told};
ghost use Rattle.pd_state.specs.Heard.{answers_of, handed_out, hears};
ghost use Rattle.pd_state.specs.Known.{AreKnown, AreRulesTold, AreTold, BeginsAnew};
ghost use Rattle.pd_state.specs.StoredRules.{rule_in, rule_key, rule_told};
ghost use Rattle.pd_state.specs.Legal.{first_reply, IsLegal, IsLegalAfter};
ghost use Rattle.pd_state.specs.Replies.{alive_reply, beat_reply, hello_refusal, hello_reply};
ghost use Rattle.pd_state.specs.Since.{since};
ghost use Rattle.pd_state.specs.State.{began_of, beats_of, clock_of, heartbeat_by, moment_of, part_after, part_of};
ghost use Rattle.pd_state.specs.declared.heard.Heard.{Heard};
ghost use Rattle.pd_state.specs.declared.reply.Reply.{Reply};
ghost use Rattle.pd_state.specs.declared.reply.Reply.TheVariants as replies;
ghost use Rattle.pd_state.specs.declared.entry.Entry.{Entry};
ghost use Rattle.pd_state.specs.declared.part.Part.{Part};

/// In a legal journal the reply of each entry, wherever it stands, is the first that applies over
/// the entries before it.
pub fn each_reply_is_the_first_that_applies()
    ensures first { (driver : ℕ) (before after : List Entry) (entry : Entry) → IsLegal driver (reverse (before ++ entry ∷ after)) → IsLegalAfter driver (reverse before) entry }
{}

/// After a legal journal the regions of the term are exactly its accepted heartbeats that no later
/// one displaced, in key order and disjoint.
pub fn the_regions_are_those_that_stand()
    ensures table { (driver : ℕ) (past entries : List Entry) → IsLegal driver past → since past ≡ Some entries → IsTable (beats_of entries) (part_of entries).standing }
{}

/// After a legal journal the stores of the term are exactly those that it was handed and those of
/// which a hello was accepted in it, with the address and the labels of the last one, by rising ids.
pub fn the_stores_are_those_that_said_hello()
    ensures known { (driver : ℕ) (past entries : List Entry) → IsLegal driver past →
        since past ≡ Some entries → AreKnown entries (part_of entries).stores }
{}

/// The clock is the greatest moment of the term's requests, refused ones too.
pub fn the_clock_is_the_greatest_moment()
    ensures most { (entries : List Entry) →
        All (λ entry. moment_of entry.request ≤ clock_of entries) entries }
    ensures one { (entries : List Entry) → entries ≢ [] →
        Any (λ entry. moment_of entry.request ≡ clock_of entries) entries }
    ensures term { (term moment : ℕ) → moment_of (ask.Term term moment) ≡ moment }
    ensures hello { (store moment : ℕ) (address : List ℕ) (labels : List Label) →
        moment_of (ask.Hello store moment address labels) ≡ moment }
    ensures alive { (store moment : ℕ) → moment_of (ask.Alive store moment) ≡ moment }
    ensures beat { (store moment : ℕ) (beat : RegionBeat) →
        moment_of (ask.Beat store moment beat) ≡ moment }
    ensures rule { (moment : ℕ) (json : List ℕ) → moment_of (ask.Rule moment json) ≡ moment }
    ensures unrule { (moment : ℕ) (group id : List ℕ) →
        moment_of (ask.Unrule moment group id) ≡ moment }
    ensures check { (moment region : ℕ) → moment_of (ask.Check moment region) ≡ moment }
    ensures patrol { (moment workers : ℕ) → moment_of (ask.Patrol moment workers) ≡ moment }
    ensures schedule { (moment : ℕ) → moment_of (ask.Schedule moment) ≡ moment }
    ensures ctl { (moment : ℕ) (words : List ℕ) → moment_of (ask.Ctl moment words) ≡ moment }
{}

/// Every request but a Term, a Retire and pd-ctl's command to resign counts in the term that it is
/// served in, refused or not, behind those before it.
pub fn a_request_counts_in_its_term()
    ensures hello { (past entries : List Entry) (entry : Entry) (store moment : ℕ) (address : List ℕ) (labels : List Label) →
        since past ≡ Some entries → entry.request ≡ ask.Hello store moment address labels → since (entry ∷ past) ≡ Some (entry ∷ entries) }
    ensures alive { (past entries : List Entry) (entry : Entry) (store moment : ℕ) →
        since past ≡ Some entries → entry.request ≡ ask.Alive store moment → since (entry ∷ past) ≡ Some (entry ∷ entries) }
    ensures beat { (past entries : List Entry) (entry : Entry) (store moment : ℕ) (beat : RegionBeat) →
        since past ≡ Some entries → entry.request ≡ ask.Beat store moment beat → since (entry ∷ past) ≡ Some (entry ∷ entries) }
    ensures rule { (past entries : List Entry) (entry : Entry) (moment : ℕ) (json : List ℕ) →
        since past ≡ Some entries → entry.request ≡ ask.Rule moment json → since (entry ∷ past) ≡ Some (entry ∷ entries) }
    ensures unrule { (past entries : List Entry) (entry : Entry) (moment : ℕ) (group id : List ℕ) →
        since past ≡ Some entries → entry.request ≡ ask.Unrule moment group id → since (entry ∷ past) ≡ Some (entry ∷ entries) }
    ensures check { (past entries : List Entry) (entry : Entry) (moment region : ℕ) →
        since past ≡ Some entries → entry.request ≡ ask.Check moment region → since (entry ∷ past) ≡ Some (entry ∷ entries) }
    ensures patrol { (past entries : List Entry) (entry : Entry) (moment workers : ℕ) →
        since past ≡ Some entries → entry.request ≡ ask.Patrol moment workers → since (entry ∷ past) ≡ Some (entry ∷ entries) }
    ensures schedule { (past entries : List Entry) (entry : Entry) (moment : ℕ) →
        since past ≡ Some entries → entry.request ≡ ask.Schedule moment → since (entry ∷ past) ≡ Some (entry ∷ entries) }
    ensures ctl { (past entries : List Entry) (entry : Entry) (moment : ℕ) (words : List ℕ) → resigns words ≡ false →
        since past ≡ Some entries → entry.request ≡ ask.Ctl moment words → since (entry ∷ past) ≡ Some (entry ∷ entries) }
{}

/// A Term that is accepted begins anew, at its own moment, with what it was handed; after one that is
/// refused, and after a Retire and pd-ctl's command to resign, there is no term.
pub fn a_term_begins_anew()
    ensures begins { (past : List Entry) (entry : Entry) (term moment number stores rules : ℕ) →
        entry.request ≡ ask.Term term moment → entry.reply ≡ replies.Term number stores rules →
        IfSome (part_after (entry ∷ past)) (λ part. BeginsAnew part term moment (handed_out entry.answers)) }
    ensures begun { (past : List Entry) (entry : Entry) (term moment number stores rules : ℕ) →
        entry.request ≡ ask.Term term moment → entry.reply ≡ replies.Term number stores rules →
        part_after (entry ∷ past) ≢ None }
    ensures outdated { (past : List Entry) (entry : Entry) (term moment fence : ℕ) →
        entry.request ≡ ask.Term term moment → entry.reply ≡ replies.OldTerm fence →
        part_after (entry ∷ past) ≡ None }
    ensures full { (past : List Entry) (entry : Entry) (term moment : ℕ) →
        entry.request ≡ ask.Term term moment → entry.reply ≡ replies.MetaLimit →
        part_after (entry ∷ past) ≡ None }
    ensures ends { (past : List Entry) (entry : Entry) → entry.request ≡ ask.Retire →
        part_after (entry ∷ past) ≡ None }
    ensures resigned { (past : List Entry) (entry : Entry) (moment : ℕ) (words : List ℕ) → resigns words ≡ true →
        entry.request ≡ ask.Ctl moment words → part_after (entry ∷ past) ≡ None }
{}

/// A Term tells how many stores and rules it begins with, alike with and without a term before it; a
/// refused one tells why. Without a term nothing else is served.
pub fn a_term_tells_its_stores_and_rules()
    ensures accepted { (driver : ℕ) (part : Option Part) (term moment revision : ℕ) (cells : List Cell) →
        first_reply driver part (ask.Term term moment) (hears (answer_of (calls.Lead term) (verdicts.Accepted revision) cells ∷ []))
        ≡ replies.Term term (length (stores_told cells)) (length (or_default (rules_told cells))) }
    ensures outdated { (driver : ℕ) (part : Option Part) (term moment fence : ℕ) →
        first_reply driver part (ask.Term term moment) (hears (answer_of (calls.Lead term) (verdicts.OldTerm fence) [] ∷ [])) ≡ replies.OldTerm fence }
    ensures full { (driver : ℕ) (part : Option Part) (term moment : ℕ) →
        first_reply driver part (ask.Term term moment) (hears (answer_of (calls.Lead term) verdicts.Limit [] ∷ [])) ≡ replies.MetaLimit }
    ensures empty { (driver : ℕ) (part : Option Part) (term moment : ℕ) →
        first_reply driver part (ask.Term term moment) (hears (answer_of (calls.Lead term) (verdicts.Accepted 0) [] ∷ [])) ≡ replies.Term term 0 1 }
    ensures hello { (driver : ℕ) (store moment : ℕ) (address : List ℕ) (labels : List Label) (heard : Heard) →
        first_reply driver None (ask.Hello store moment address labels) heard ≡ replies.NotLeading }
    ensures alive { (driver : ℕ) (store moment : ℕ) (heard : Heard) →
        first_reply driver None (ask.Alive store moment) heard ≡ replies.NotLeading }
    ensures beat { (driver : ℕ) (store moment : ℕ) (beat : RegionBeat) (heard : Heard) →
        first_reply driver None (ask.Beat store moment beat) heard ≡ replies.NotLeading }
    ensures rule { (driver : ℕ) (moment : ℕ) (json : List ℕ) (heard : Heard) →
        first_reply driver None (ask.Rule moment json) heard ≡ replies.NotLeading }
    ensures unrule { (driver : ℕ) (moment : ℕ) (group id : List ℕ) (heard : Heard) →
        first_reply driver None (ask.Unrule moment group id) heard ≡ replies.NotLeading }
    ensures check { (driver : ℕ) (moment region : ℕ) (heard : Heard) →
        first_reply driver None (ask.Check moment region) heard ≡ replies.NotLeading }
    ensures patrol { (driver : ℕ) (moment workers : ℕ) (heard : Heard) →
        first_reply driver None (ask.Patrol moment workers) heard ≡ replies.NotLeading }
    ensures schedule { (driver : ℕ) (moment : ℕ) (heard : Heard) →
        first_reply driver None (ask.Schedule moment) heard ≡ replies.NotLeading }
    ensures ctl { (driver : ℕ) (moment : ℕ) (words : List ℕ) (heard : Heard) →
        first_reply driver None (ask.Ctl moment words) heard ≡ replies.NotLeading }
    ensures retire { (driver : ℕ) (heard : Heard) → first_reply driver None ask.Retire heard ≡ replies.NotLeading }
    ensures retires { (driver : ℕ) (part : Part) (heard : Heard) → first_reply driver (Some part) ask.Retire heard ≡ replies.Retired }
{}

/// The stores that a lead's records tell are those that they are read as, up to 256 of them.
pub fn the_stores_are_those_that_were_handed_out()
    ensures told { (cells : List Cell) → AreTold cells (stores_told cells) }
    ensures stored { (store : StoreRec) (revision : ℕ) → IsStore store →
        store_in (record { key = store_key store.id; revision = revision; bytes = store_bytes store }) ≡ Some store }
    ensures only { (cell : Cell) (store : StoreRec) → store_in cell ≡ Some store →
        (cell.key ≡ store_key store.id) × (cell.bytes ≡ store_bytes store) }
{}

/// The rules that a lead's records tell are those that their bytes mean, each under its own key, up to
/// 64 of them; the default rule stands where they tell none.
pub fn the_rules_are_those_that_were_handed_out()
    ensures told { (cells : List Cell) → AreRulesTold cells (rules_told cells) }
    ensures none { or_default [] ≡ default_rule ∷ [] }
    ensures some { (rule : Rule) (rules : List Rule) → or_default (rule ∷ rules) ≡ rule ∷ rules }
    ensures stored { (rule : Rule) (revision : ℕ) (bytes : List ℕ) → Means bytes rule →
        rule_in (record { key = rule_key rule.group rule.id; revision = revision; bytes = bytes }) ≡ Some rule }
    ensures key { (cell : Cell) (rule : Rule) → rule_in cell ≡ Some rule → cell.key ≡ rule_key rule.group rule.id }
    ensures means { (bytes : List ℕ) (rule : Rule) → Means bytes rule → rule_told bytes ≡ Ok rule }
    ensures refused { (bytes : List ℕ) (fault : RuleFault) → RefusedText bytes fault → fault ≢ NoMemory →
        rule_told bytes ≡ Err fault }
    ensures spelled { rule_key (codes "pd") (codes "default") ≡ codes "rule/7064/64656661756c74" }
{}

/// An Offline store is heard as an Up one is, a Tombstone isn't, and a 257th store isn't taken.
pub fn who_is_heard()
    ensures offline { (known : ℕ) → hello_refusal (Some states.Offline) known ≡ None }
    ensures alive { alive_reply (Some states.Offline) ≡ replies.Alive }
    ensures tombstone { (known : ℕ) (heard : Heard) →
        hello_reply (Some states.Tombstone) known heard ≡ replies.Tombstone }
    ensures silent { alive_reply (Some states.Tombstone) ≡ replies.Tombstone }
    ensures known { (known : ℕ) → hello_refusal (Some states.Up) known ≡ None }
    ensures up { alive_reply (Some states.Up) ≡ replies.Alive }
    ensures unknown { alive_reply None ≡ replies.UnknownStore }
    ensures last { hello_refusal None 255 ≡ None }
    ensures limit { (heard : Heard) → hello_reply None 256 heard ≡ replies.Limit }
{}

/// A hello that nothing refuses before is answered by the verdict on its write.
pub fn a_hello_is_answered_as_it_was_written()
    ensures put { (state : Option StoreState) (known revision : ℕ) (call : MetaCall) → hello_refusal state known ≡ None →
        hello_reply state known (hears (answer_of call (verdicts.Accepted revision) [] ∷ [])) ≡ replies.StorePut }
    ensures outdated { (state : Option StoreState) (known fence : ℕ) (call : MetaCall) → hello_refusal state known ≡ None →
        hello_reply state known (hears (answer_of call (verdicts.OldTerm fence) [] ∷ [])) ≡ replies.OldTerm fence }
    ensures conflict { (state : Option StoreState) (known found : ℕ) (call : MetaCall) → hello_refusal state known ≡ None →
        hello_reply state known (hears (answer_of call (verdicts.Conflict found) [] ∷ [])) ≡ replies.Conflict found }
    ensures full { (state : Option StoreState) (known : ℕ) (call : MetaCall) → hello_refusal state known ≡ None →
        hello_reply state known (hears (answer_of call verdicts.Limit [] ∷ [])) ≡ replies.MetaLimit }
{}

/// The calls of each request, but for those of `the_calls_of_a_rule` and `the_calls_of_a_removal`. A
/// Term announces its term, and a hello that nothing refuses before writes the store's record at the
/// known revision; heartbeats and a Retire make no call, and no request but a Term makes one without a
/// term.
pub fn the_calls_of_each_request()
    ensures term { (part : Option Part) (term moment : ℕ) (answers : List MetaAnswer) →
        AreAsked (next_call part (ask.Term term moment) []) [] answers → AreCalls (calls.Lead term ∷ []) answers }
    ensures hello { (part : Part) (store moment : ℕ) (address : List ℕ) (labels : List Label) (answers : List MetaAnswer) →
        AreAsked (next_call (Some part) (ask.Hello store moment address labels) []) [] answers →
        entry_at store part.stores ≡ None → length part.stores < 256 →
        AreCalls (calls.Put part.term (store_key store) (revision_in (cell_at (store_key store) part.known)) (store_bytes (record { id = store; address = address; labels = labels; state = states.Up })) ∷ []) answers }
    ensures again { (part : Part) (store moment : ℕ) (address : List ℕ) (labels : List Label) (known : StoreEntry) (answers : List MetaAnswer) →
        AreAsked (next_call (Some part) (ask.Hello store moment address labels) []) [] answers →
        entry_at store part.stores ≡ Some known → known.store.state ≢ states.Tombstone →
        AreCalls (calls.Put part.term (store_key store) (revision_in (cell_at (store_key store) part.known)) (store_bytes (record { id = store; address = address; labels = labels; state = known.store.state })) ∷ []) answers }
    ensures refused { (part : Part) (store moment : ℕ) (address : List ℕ) (labels : List Label) (reply : Reply) (answers : List MetaAnswer) →
        AreAsked (next_call (Some part) (ask.Hello store moment address labels) []) [] answers →
        hello_refusal (state_at store part.stores) (length part.stores) ≡ Some reply → answers ≡ [] }
    ensures alive { (part : Option Part) (store moment : ℕ) (answers : List MetaAnswer) →
        AreAsked (next_call part (ask.Alive store moment) []) [] answers → answers ≡ [] }
    ensures beat { (part : Option Part) (store moment : ℕ) (beat : RegionBeat) (answers : List MetaAnswer) →
        AreAsked (next_call part (ask.Beat store moment beat) []) [] answers → answers ≡ [] }
    ensures retire { (part : Option Part) (answers : List MetaAnswer) →
        AreAsked (next_call part ask.Retire []) [] answers → answers ≡ [] }
    ensures without { (store moment : ℕ) (address : List ℕ) (labels : List Label) (answers : List MetaAnswer) →
        AreAsked (next_call None (ask.Hello store moment address labels) []) [] answers → answers ≡ [] }
    ensures rule { (moment : ℕ) (json : List ℕ) (answers : List MetaAnswer) →
        AreAsked (next_call None (ask.Rule moment json) []) [] answers → answers ≡ [] }
    ensures unrule { (moment : ℕ) (group id : List ℕ) (answers : List MetaAnswer) →
        AreAsked (next_call None (ask.Unrule moment group id) []) [] answers → answers ≡ [] }
    ensures check { (moment region : ℕ) (answers : List MetaAnswer) →
        AreAsked (next_call None (ask.Check moment region) []) [] answers → answers ≡ [] }
    ensures patrol { (moment workers : ℕ) (answers : List MetaAnswer) →
        AreAsked (next_call None (ask.Patrol moment workers) []) [] answers → answers ≡ [] }
    ensures schedule { (moment : ℕ) (said : List Said) (answers : List MetaAnswer) →
        AreAsked (next_call None (ask.Schedule moment) said) [] answers → answers ≡ [] }
    ensures ctl { (moment : ℕ) (words : List ℕ) (answers : List MetaAnswer) →
        AreAsked (next_call None (ask.Ctl moment words) []) [] answers → answers ≡ [] }
{}

/// The revision that a term knows of a key is that of the last accepted write of it that the term
/// heard of, or the one that its lead handed out.
pub fn the_revisions_are_those_heard()
    ensures known { (entries : List Entry) (key : List ℕ) →
        revision_in (cell_at key (part_of entries).known) ≡ known_revision key (answers_of entries) }
{}

/// A region heartbeat is answered as it was taken in; an accepted one by how many others it removed, and
/// by what its region's operator is answered.
pub fn a_heartbeat_is_answered_as_taken()
    ensures bad { (fault : BeatFault) (answer : Dispatch) → beat_reply (intakes.Bad fault) answer ≡ replies.Bad fault }
    ensures stale { (kept : Epoch) (answer : Dispatch) → beat_reply (intakes.Stale kept) answer ≡ replies.Stale kept }
    ensures full { (answer : Dispatch) → beat_reply intakes.Full answer ≡ replies.Full }
    ensures accepted { (removed : List ℕ) (answer : Dispatch) →
        beat_reply (intakes.Accepted removed) answer ≡ replies.Accepted (length removed) answer }
{}

/// A store is heard by its own accepted hellos and alives, of which the greatest moment counts, and by
/// nothing else; its silence is counted from the beginning of the term.
pub fn a_store_is_heard_by_hello_and_alive()
    ensures hello { (store moment : ℕ) (address : List ℕ) (labels : List Label) (before : Option ℕ) →
        heartbeat_by (ask.Hello store moment address labels) replies.StorePut store before
        ≡ Some (later before moment) }
    ensures alive { (store moment : ℕ) (before : Option ℕ) →
        heartbeat_by (ask.Alive store moment) replies.Alive store before ≡ Some (later before moment) }
    ensures refused { (store at moment : ℕ) (reply : Reply) (before : Option ℕ) →
        reply ≢ replies.Alive → heartbeat_by (ask.Alive at moment) reply store before ≡ before }
    ensures other { (store at moment : ℕ) (before : Option ℕ) → at ≢ store →
        heartbeat_by (ask.Alive at moment) replies.Alive store before ≡ before }
    ensures unput { (store at moment : ℕ) (address : List ℕ) (labels : List Label) (reply : Reply)
        (before : Option ℕ) → reply ≢ replies.StorePut →
        heartbeat_by (ask.Hello at moment address labels) reply store before ≡ before }
    ensures greets { (store at moment : ℕ) (address : List ℕ) (labels : List Label)
        (before : Option ℕ) → at ≢ store →
        heartbeat_by (ask.Hello at moment address labels) replies.StorePut store before ≡ before }
    ensures beat { (store at moment : ℕ) (beat : RegionBeat) (reply : Reply) (before : Option ℕ) →
        heartbeat_by (ask.Beat at moment beat) reply store before ≡ before }
    ensures rule { (store moment : ℕ) (json : List ℕ) (reply : Reply) (before : Option ℕ) →
        heartbeat_by (ask.Rule moment json) reply store before ≡ before }
    ensures unrule { (store moment : ℕ) (group id : List ℕ) (reply : Reply) (before : Option ℕ) →
        heartbeat_by (ask.Unrule moment group id) reply store before ≡ before }
    ensures check { (store moment region : ℕ) (reply : Reply) (before : Option ℕ) →
        heartbeat_by (ask.Check moment region) reply store before ≡ before }
    ensures patrol { (store moment workers : ℕ) (reply : Reply) (before : Option ℕ) →
        heartbeat_by (ask.Patrol moment workers) reply store before ≡ before }
    ensures schedule { (store moment : ℕ) (reply : Reply) (before : Option ℕ) →
        heartbeat_by (ask.Schedule moment) reply store before ≡ before }
    ensures ctl { (store moment : ℕ) (words : List ℕ) (reply : Reply) (before : Option ℕ) →
        heartbeat_by (ask.Ctl moment words) reply store before ≡ before }
    ensures began { (entries : List Entry) →
        All (λ store. store.began ≡ began_of entries) (part_of entries).stores }
{}
