// What the requests that set and remove a placement rule are answered, ask of the metadata, and leave.
ghost use Rattle.std.specs.Prelude.{◌≡◌, ◌≢◌, ◌<◌, ◌≤◌, ◌++◌, ◌∷◌, ◌⊎◌, ◌↔◌, ℕ, List, [], None, Some, Err, true, false, All, Contains, codes, length, map};
ghost use Rattle.std.specs.List.{Any};
ghost use Rattle.pd_types.specs.declared.region.RegionBeat.{RegionBeat};
ghost use Rattle.pd_types.specs.declared.request.Request.TheVariants as ask;
ghost use Rattle.pd_types.specs.declared.rule.Rule.{Rule};
ghost use Rattle.pd_types.specs.declared.store.Label.{Label};
ghost use Rattle.meta_store.specs.declared.record.MetaAnswer.{MetaAnswer};
ghost use Rattle.meta_store.specs.declared.record.MetaCall.{MetaCall};
ghost use Rattle.meta_store.specs.declared.record.MetaCall.TheVariants as calls;
ghost use Rattle.meta_store.specs.declared.record.MetaVerdict.TheVariants as verdicts;
ghost use Rattle.meta_store.specs.Asked.{AreAsked};
ghost use Rattle.meta_store.specs.Cells.{cell_at, revision_in};
ghost use Rattle.meta_store.specs.Doors.{answer_of};
ghost use Rattle.meta_store.specs.Past.{is_accepted};
ghost use Rattle.rule_set.specs.Changes.{knows, set_refusal};
ghost use Rattle.rule_set.specs.Order.{AreApart};
ghost use Rattle.rule_text.specs.declared.fault.RuleFault.{RuleFault};
ghost use Rattle.rule_text.specs.declared.fault.RuleFault.TheVariants as faults;
ghost use Rattle.rule_text.specs.Meaning.{rule_data};
ghost use Rattle.rule_text.specs.Tests.{Means, RefusedText};
ghost use Rattle.serde_json.specs.Written.{compact_text};
ghost use Rattle.pd_state.specs.Calls.{AreCalls, next_call};
ghost use Rattle.pd_state.specs.Legal.{first_reply};
ghost use Rattle.pd_state.specs.ReplyText.{rule_fault_number};
ghost use Rattle.pd_state.specs.State.{part_of};
ghost use Rattle.pd_state.specs.Heard.{hears};
ghost use Rattle.pd_state.specs.StoredRules.{rule_key, rule_told};
ghost use Rattle.pd_state.specs.declared.entry.Entry.{Entry};
ghost use Rattle.pd_state.specs.declared.heard.Heard.{Heard};
ghost use Rattle.pd_state.specs.declared.part.Part.{Part};
ghost use Rattle.pd_state.specs.declared.reply.Reply.TheVariants as replies;

/// A rule whose text fails a test is answered by it, whatever else holds; a rule of a new name is
/// refused at 64 rules, and no other is; then the first refused call decides, and else it is set.
pub fn how_a_rule_is_answered()
    ensures bad { (driver : ℕ) (part : Part) (moment : ℕ) (json : List ℕ) (fault : RuleFault) (heard : Heard) →
        RefusedText json fault → fault ≢ faults.NoMemory →
        first_reply driver (Some part) (ask.Rule moment json) heard ≡ replies.BadRule fault }
    ensures limit { (driver : ℕ) (part : Part) (moment : ℕ) (json : List ℕ) (rule : Rule) (heard : Heard) → Means json rule →
        (first_reply driver (Some part) (ask.Rule moment json) heard ≡ replies.RuleLimit)
        ↔ ((knows rule.group rule.id part.rules ≡ false) × (64 ≤ length part.rules)) }
    ensures put { (driver : ℕ) (part : Part) (moment : ℕ) (json : List ℕ) (rule : Rule) (heard : Heard) → Means json rule →
        set_refusal rule part.rules ≡ None → All (λ answer. is_accepted answer.verdict ≡ true) heard.answers →
        first_reply driver (Some part) (ask.Rule moment json) heard ≡ replies.RulePut }
    ensures outdated { (driver : ℕ) (part : Part) (moment fence : ℕ) (json : List ℕ) (rule : Rule) (before : List MetaAnswer) (call : MetaCall) →
        Means json rule → set_refusal rule part.rules ≡ None → All (λ answer. is_accepted answer.verdict ≡ true) before →
        first_reply driver (Some part) (ask.Rule moment json) (hears (before ++ answer_of call (verdicts.OldTerm fence) [] ∷ [])) ≡ replies.OldTerm fence }
    ensures conflict { (driver : ℕ) (part : Part) (moment found : ℕ) (json : List ℕ) (rule : Rule) (before : List MetaAnswer) (call : MetaCall) →
        Means json rule → set_refusal rule part.rules ≡ None → All (λ answer. is_accepted answer.verdict ≡ true) before →
        first_reply driver (Some part) (ask.Rule moment json) (hears (before ++ answer_of call (verdicts.Conflict found) [] ∷ [])) ≡ replies.Conflict found }
    ensures full { (driver : ℕ) (part : Part) (moment : ℕ) (json : List ℕ) (rule : Rule) (before : List MetaAnswer) (call : MetaCall) →
        Means json rule → set_refusal rule part.rules ≡ None → All (λ answer. is_accepted answer.verdict ≡ true) before →
        first_reply driver (Some part) (ask.Rule moment json) (hears (before ++ answer_of call verdicts.Limit [] ∷ [])) ≡ replies.MetaLimit }
{}

/// A removal of a rule that isn't there is answered so, whatever else holds; then the only rule stays;
/// then a refused deletion decides, and else the rule is removed, without a deletion too.
pub fn how_a_removal_is_answered()
    ensures absent { (driver : ℕ) (part : Part) (moment : ℕ) (group id : List ℕ) (heard : Heard) → knows group id part.rules ≡ false →
        first_reply driver (Some part) (ask.Unrule moment group id) heard ≡ replies.Absent }
    ensures last { (driver : ℕ) (part : Part) (moment : ℕ) (group id : List ℕ) (heard : Heard) → knows group id part.rules ≡ true →
        length part.rules ≡ 1 → first_reply driver (Some part) (ask.Unrule moment group id) heard ≡ replies.LastRule }
    ensures removed { (driver : ℕ) (part : Part) (moment : ℕ) (group id : List ℕ) (heard : Heard) → knows group id part.rules ≡ true →
        length part.rules ≢ 1 → All (λ answer. is_accepted answer.verdict ≡ true) heard.answers →
        first_reply driver (Some part) (ask.Unrule moment group id) heard ≡ replies.RuleRemoved }
    ensures outdated { (driver : ℕ) (part : Part) (moment fence : ℕ) (group id : List ℕ) (call : MetaCall) → knows group id part.rules ≡ true →
        length part.rules ≢ 1 →
        first_reply driver (Some part) (ask.Unrule moment group id) (hears (answer_of call (verdicts.OldTerm fence) [] ∷ [])) ≡ replies.OldTerm fence }
    ensures conflict { (driver : ℕ) (part : Part) (moment found : ℕ) (group id : List ℕ) (call : MetaCall) → knows group id part.rules ≡ true →
        length part.rules ≢ 1 →
        first_reply driver (Some part) (ask.Unrule moment group id) (hears (answer_of call (verdicts.Conflict found) [] ∷ [])) ≡ replies.Conflict found }
    ensures full { (driver : ℕ) (part : Part) (moment : ℕ) (group id : List ℕ) (call : MetaCall) → knows group id part.rules ≡ true →
        length part.rules ≢ 1 →
        first_reply driver (Some part) (ask.Unrule moment group id) (hears (answer_of call verdicts.Limit [] ∷ [])) ≡ replies.MetaLimit }
{}

/// A rule that nothing refuses before is written at the revision that is known of its key: alone where
/// it is the default rule, where that is stored, and where the set has none; else behind the default
/// rule as the set has it.
pub fn the_calls_of_a_rule()
    ensures bad { (part : Part) (moment : ℕ) (json : List ℕ) (fault : RuleFault) (answers : List MetaAnswer) →
        AreAsked (next_call (Some part) (ask.Rule moment json) []) [] answers →
        RefusedText json fault → fault ≢ faults.NoMemory → answers ≡ [] }
    ensures limit { (part : Part) (moment : ℕ) (json : List ℕ) (rule : Rule) (answers : List MetaAnswer) →
        AreAsked (next_call (Some part) (ask.Rule moment json) []) [] answers → Means json rule →
        knows rule.group rule.id part.rules ≡ false → 64 ≤ length part.rules → answers ≡ [] }
    ensures default { (part : Part) (moment : ℕ) (json : List ℕ) (rule : Rule) (answers : List MetaAnswer) →
        AreAsked (next_call (Some part) (ask.Rule moment json) []) [] answers → Means json rule → set_refusal rule part.rules ≡ None →
        rule.group ≡ codes "pd" → rule.id ≡ codes "default" →
        AreCalls (calls.Put part.term (rule_key rule.group rule.id) (revision_in (cell_at (rule_key rule.group rule.id) part.known)) (compact_text (rule_data rule)) ∷ []) answers }
    ensures stored { (part : Part) (moment : ℕ) (json : List ℕ) (rule : Rule) (answers : List MetaAnswer) →
        AreAsked (next_call (Some part) (ask.Rule moment json) []) [] answers → Means json rule → set_refusal rule part.rules ≡ None →
        0 < revision_in (cell_at (codes "rule/7064/64656661756c74") part.known) →
        AreCalls (calls.Put part.term (rule_key rule.group rule.id) (revision_in (cell_at (rule_key rule.group rule.id) part.known)) (compact_text (rule_data rule)) ∷ []) answers }
    ensures without { (part : Part) (moment : ℕ) (json : List ℕ) (rule : Rule) (answers : List MetaAnswer) →
        AreAsked (next_call (Some part) (ask.Rule moment json) []) [] answers → Means json rule → set_refusal rule part.rules ≡ None →
        knows (codes "pd") (codes "default") part.rules ≡ false →
        AreCalls (calls.Put part.term (rule_key rule.group rule.id) (revision_in (cell_at (rule_key rule.group rule.id) part.known)) (compact_text (rule_data rule)) ∷ []) answers }
    ensures behind { (part : Part) (moment : ℕ) (json : List ℕ) (rule : Rule) (answers : List MetaAnswer) →
        AreAsked (next_call (Some part) (ask.Rule moment json) []) [] answers → Means json rule → set_refusal rule part.rules ≡ None →
        (rule.group ≡ codes "pd" → rule.id ≡ codes "default" → ⊥) →
        revision_in (cell_at (codes "rule/7064/64656661756c74") part.known) ≡ 0 →
        knows (codes "pd") (codes "default") part.rules ≡ true →
        Any (λ kept. (kept.group ≡ codes "pd") × (kept.id ≡ codes "default") × AreCalls
        (calls.Put part.term (codes "rule/7064/64656661756c74") 0 (compact_text (rule_data kept))
        ∷ calls.Put part.term (rule_key rule.group rule.id) (revision_in (cell_at (rule_key rule.group rule.id) part.known)) (compact_text (rule_data rule)) ∷ []) answers) part.rules }
{}

/// A removal that nothing refuses before deletes the rule's record at the revision that is known of
/// it, and makes no call where the rule isn't stored.
pub fn the_calls_of_a_removal()
    ensures absent { (part : Part) (moment : ℕ) (group id : List ℕ) (answers : List MetaAnswer) →
        AreAsked (next_call (Some part) (ask.Unrule moment group id) []) [] answers →
        knows group id part.rules ≡ false → answers ≡ [] }
    ensures last { (part : Part) (moment : ℕ) (group id : List ℕ) (answers : List MetaAnswer) →
        AreAsked (next_call (Some part) (ask.Unrule moment group id) []) [] answers →
        length part.rules ≡ 1 → answers ≡ [] }
    ensures stored { (part : Part) (moment : ℕ) (group id : List ℕ) (answers : List MetaAnswer) →
        AreAsked (next_call (Some part) (ask.Unrule moment group id) []) [] answers → knows group id part.rules ≡ true →
        length part.rules ≢ 1 → 0 < revision_in (cell_at (rule_key group id) part.known) →
        AreCalls (calls.Delete part.term (rule_key group id) (revision_in (cell_at (rule_key group id) part.known)) ∷ []) answers }
    ensures unstored { (part : Part) (moment : ℕ) (group id : List ℕ) (answers : List MetaAnswer) →
        AreAsked (next_call (Some part) (ask.Unrule moment group id) []) [] answers →
        revision_in (cell_at (rule_key group id) part.known) ≡ 0 → answers ≡ [] }
{}

/// A rule that was set stands in place of the one of its group and id, and one that was removed is
/// gone; all others stay. A refused one leaves all rules, and so do the requests of stores.
pub fn what_is_left_of_the_rules()
    ensures put { (entries : List Entry) (entry : Entry) (moment : ℕ) (json : List ℕ) (rule one : Rule) →
        entry.request ≡ ask.Rule moment json → entry.reply ≡ replies.RulePut → Means json rule →
        Contains (part_of (entry ∷ entries)).rules one ↔ ((rule ≡ one) ⊎ (Contains (part_of entries).rules one × AreApart one rule)) }
    ensures unput { (entries : List Entry) (entry : Entry) (moment : ℕ) (json : List ℕ) →
        entry.request ≡ ask.Rule moment json → entry.reply ≢ replies.RulePut →
        (part_of (entry ∷ entries)).rules ≡ (part_of entries).rules }
    ensures removed { (entries : List Entry) (entry : Entry) (moment : ℕ) (group id : List ℕ) (one : Rule) →
        entry.request ≡ ask.Unrule moment group id → entry.reply ≡ replies.RuleRemoved →
        Contains (part_of (entry ∷ entries)).rules one ↔ (Contains (part_of entries).rules one × (one.group ≡ group → one.id ≡ id → ⊥)) }
    ensures kept { (entries : List Entry) (entry : Entry) (moment : ℕ) (group id : List ℕ) →
        entry.request ≡ ask.Unrule moment group id → entry.reply ≢ replies.RuleRemoved →
        (part_of (entry ∷ entries)).rules ≡ (part_of entries).rules }
    ensures hello { (entries : List Entry) (entry : Entry) (store moment : ℕ) (address : List ℕ) (labels : List Label) →
        entry.request ≡ ask.Hello store moment address labels → (part_of (entry ∷ entries)).rules ≡ (part_of entries).rules }
    ensures alive { (entries : List Entry) (entry : Entry) (store moment : ℕ) →
        entry.request ≡ ask.Alive store moment → (part_of (entry ∷ entries)).rules ≡ (part_of entries).rules }
    ensures beat { (entries : List Entry) (entry : Entry) (store moment : ℕ) (beat : RegionBeat) →
        entry.request ≡ ask.Beat store moment beat → (part_of (entry ∷ entries)).rules ≡ (part_of entries).rules }
{}

/// Setting and removing a rule leave the term, its beginning, the stores and the regions.
pub fn what_a_rule_leaves_alone()
    ensures rule { (entries : List Entry) (entry : Entry) (moment : ℕ) (json : List ℕ) → entry.request ≡ ask.Rule moment json →
        ((part_of (entry ∷ entries)).term ≡ (part_of entries).term) × ((part_of (entry ∷ entries)).began ≡ (part_of entries).began)
        × ((part_of (entry ∷ entries)).stores ≡ (part_of entries).stores) × ((part_of (entry ∷ entries)).standing ≡ (part_of entries).standing) }
    ensures unrule { (entries : List Entry) (entry : Entry) (moment : ℕ) (group id : List ℕ) → entry.request ≡ ask.Unrule moment group id →
        ((part_of (entry ∷ entries)).term ≡ (part_of entries).term) × ((part_of (entry ∷ entries)).began ≡ (part_of entries).began)
        × ((part_of (entry ∷ entries)).stores ≡ (part_of entries).stores) × ((part_of (entry ∷ entries)).standing ≡ (part_of entries).standing) }
{}

/// Where the second of two writes is refused, the default rule stays stored, and its revision known;
/// once a rule's record is deleted, the rule isn't stored.
pub fn what_is_stored_of_a_rule()
    ensures default { (entries : List Entry) (entry : Entry) (second : MetaAnswer) (term revision : ℕ) (bytes : List ℕ) →
        entry.answers ≡ answer_of (calls.Put term (codes "rule/7064/64656661756c74") 0 bytes) (verdicts.Accepted revision) [] ∷ second ∷ [] →
        is_accepted second.verdict ≡ false →
        revision_in (cell_at (codes "rule/7064/64656661756c74") (part_of (entry ∷ entries)).known) ≡ revision }
    ensures deleted { (entries : List Entry) (entry : Entry) (term expected revision : ℕ) (group id : List ℕ) →
        entry.answers ≡ answer_of (calls.Delete term (rule_key group id) expected) (verdicts.Accepted revision) [] ∷ [] →
        revision_in (cell_at (rule_key group id) (part_of (entry ∷ entries)).known) ≡ 0 }
{}

/// The tests of a rule's text are numbered from 1 to 10 in their order, and no other number is
/// answered.
pub fn the_numbers_of_a_rules_faults()
    ensures numbers { map rule_fault_number
        (faults.NotJson ∷ faults.NotObject ∷ faults.Missing ∷ faults.WrongKind ∷ faults.BadHex ∷
        faults.BadRole ∷ faults.BadOp ∷ faults.BadCount ∷ faults.EmptyRange ∷ faults.IsolationLevel ∷ [])
        ≡ 1 ∷ 2 ∷ 3 ∷ 4 ∷ 5 ∷ 6 ∷ 7 ∷ 8 ∷ 9 ∷ 10 ∷ [] }
    ensures answered { (json : List ℕ) (fault : RuleFault) → rule_told json ≡ Err fault →
        (1 ≤ rule_fault_number fault) × (rule_fault_number fault ≤ 10) }
{}
