ghost use Rattle.std.specs.Prelude.{◌≡◌, ◌≢◌, ◌↔◌, ◌<◌, ◌≤◌, ℕ, List, [], ◌∷◌, Some, None, Ok, true, false, codes, length, map, is_some};
ghost use Rattle.hex.specs.Hex.{encode_lower};
ghost use Rattle.serde_json.specs.Data.{Data, boolean, null, number, string, unsigned};
ghost use Rattle.serde_json.specs.Find.{as_object, get};
ghost use Rattle.pd_types.specs.declared.rule.Op.{Op};
ghost use Rattle.pd_types.specs.declared.rule.Op.TheVariants.{In, NotIn, Exists, NotExists};
ghost use Rattle.pd_types.specs.declared.rule.RuleRole.{RuleRole};
ghost use Rattle.pd_types.specs.declared.rule.RuleRole.TheVariants.{Voter, Leader, Follower, Learner};
ghost use Rattle.pd_types.specs.declared.rule.Constraint.{Constraint};
ghost use Rattle.pd_types.specs.declared.rule.Rule.{Rule};
ghost use Rattle.pd_types.specs.Keys.{is_before_end};
ghost use Rattle.rule_text.specs.declared.fault.RuleFault.{RuleFault};
ghost use Rattle.rule_text.specs.declared.fault.RuleFault.TheVariants as faults;
ghost use Rattle.rule_text.specs.declared.fault.RuleFault.TheVariants.{NoMemory};
ghost use Rattle.rule_text.specs.Fields.{given};
ghost use Rattle.rule_text.specs.Meaning.{constraint_data, constraints_data, rule_data, texts_data, within};
ghost use Rattle.rule_text.specs.Tests.{are_few, fits_word, has_name_length, has_no_level, is_count, is_missing, lacks_word, tests_of, Means, RefusedText};
ghost use Rattle.rule_text.specs.Words.{op_of, op_word, role_of, role_word};

/// Bytes mean one rule at most, and those that mean one are refused for want of memory alone. So
/// `read_rule` of what `print_rule` writes of a rule that can be read gives that rule.
pub fn what_is_printed_is_read()
    ensures one { (bytes : List ℕ) (a b : Rule) → Means bytes a → Means bytes b → a ≡ b }
    ensures refused { (bytes : List ℕ) (rule : Rule) (fault : RuleFault) → Means bytes rule → RefusedText bytes fault → fault ≡ NoMemory }
{}

/// The bounds of a rule's text, which are our own: names of 1 to 64 bytes, counts of 1 to 15 and of 1
/// for a leader, numbers below 2^32, keys of at most 256 bytes, at most 4 location labels.
pub fn the_bounds()
    ensures names { (text : List ℕ) →
        (has_name_length (Some text) ≡ true) ↔ ((1 ≤ length text) × (length text ≤ 64)) }
    ensures leader { (count : ℕ) → (is_count Leader count ≡ true) ↔ (count ≡ 1) }
    ensures counts { (role : RuleRole) (count : ℕ) → role ≢ Leader →
        (is_count role count ≡ true) ↔ ((1 ≤ count) × (count ≤ 15)) }
    ensures numbers { (number : ℕ) → (fits_word (Some number) ≡ true) ↔ (number < 4294967296) }
    ensures keys { (bytes : List ℕ) → length bytes ≤ 256 → within (Ok bytes) ≡ Some bytes }
    ensures long_keys { (bytes : List ℕ) → 256 < length bytes → within (Ok bytes) ≡ None }
    ensures labels { (list : List Data) → (are_few (Some list) ≡ true) ↔ (length list ≤ 4) }
{}

/// The words for roles and operators, which name them and no others.
pub fn each_role_has_its_word()
    ensures roles { map role_word (Voter ∷ Leader ∷ Follower ∷ Learner ∷ []) ≡
        codes "voter" ∷ codes "leader" ∷ codes "follower" ∷ codes "learner" ∷ [] }
    ensures operators { map op_word (In ∷ NotIn ∷ Exists ∷ NotExists ∷ []) ≡
        codes "in" ∷ codes "notIn" ∷ codes "exists" ∷ codes "notExists" ∷ [] }
    ensures role { (role : RuleRole) → role_of (role_word role) ≡ Some role }
    ensures operator { (op : Op) → op_of (op_word op) ≡ Some op }
{}

/// The tests of a JSON value in their order; a rule needs its group, id, role and count, and each
/// constraint its key and operator; a null counts as absent where a field may be absent; a range from
/// a key to itself is empty.
pub fn the_tests_stand_in_order()
    ensures order { (value : Data) → map (λ test. test.fault) (tests_of value) ≡
        faults.NotObject ∷ faults.Missing ∷ faults.WrongKind ∷ faults.BadHex ∷ faults.BadRole ∷
        faults.BadOp ∷ faults.BadCount ∷ faults.EmptyRange ∷ faults.IsolationLevel ∷ [] }
    ensures group { (value : Data) → get (codes "group_id") value ≡ None → is_missing value ≡ true }
    ensures id { (value : Data) → get (codes "id") value ≡ None → is_missing value ≡ true }
    ensures role { (value : Data) → get (codes "role") value ≡ None → is_missing value ≡ true }
    ensures count { (value : Data) → get (codes "count") value ≡ None → is_missing value ≡ true }
    ensures key { (one : Data) → is_some (as_object one) ≡ true → get (codes "key") one ≡ None →
        lacks_word one ≡ true }
    ensures operator { (one : Data) → is_some (as_object one) ≡ true →
        get (codes "op") one ≡ None → lacks_word one ≡ true }
    ensures absent { (name : List ℕ) (value : Data) → get name value ≡ Some null →
        given name value ≡ None }
    ensures range { (key : List ℕ) → key ≢ [] → is_before_end key key ≡ false }
    ensures endless { (key : List ℕ) → is_before_end key [] ≡ true }
{}

/// Under which name each field of a rule is printed, and those of a constraint. The names are those
/// of PD's documentation.
pub fn each_field_has_its_name()
    ensures group { (rule : Rule) → get (codes "group_id") (rule_data rule) ≡ Some (string rule.group) }
    ensures id { (rule : Rule) → get (codes "id") (rule_data rule) ≡ Some (string rule.id) }
    ensures index { (rule : Rule) →
        get (codes "index") (rule_data rule) ≡ Some (number (unsigned rule.index)) }
    ensures overrides { (rule : Rule) →
        get (codes "override") (rule_data rule) ≡ Some (boolean rule.overrides) }
    ensures start { (rule : Rule) →
        get (codes "start_key") (rule_data rule) ≡ Some (string (encode_lower rule.start)) }
    ensures end { (rule : Rule) →
        get (codes "end_key") (rule_data rule) ≡ Some (string (encode_lower rule.end)) }
    ensures role { (rule : Rule) →
        get (codes "role") (rule_data rule) ≡ Some (string (role_word rule.role)) }
    ensures count { (rule : Rule) →
        get (codes "count") (rule_data rule) ≡ Some (number (unsigned rule.count)) }
    ensures constraints { (rule : Rule) →
        get (codes "label_constraints") (rule_data rule) ≡ Some (constraints_data rule.constraints) }
    ensures locations { (rule : Rule) →
        get (codes "location_labels") (rule_data rule) ≡ Some (texts_data rule.locations) }
    ensures key { (one : Constraint) → get (codes "key") (constraint_data one) ≡ Some (string one.key) }
    ensures operator { (one : Constraint) →
        get (codes "op") (constraint_data one) ≡ Some (string (op_word one.op)) }
    ensures values { (one : Constraint) →
        get (codes "values") (constraint_data one) ≡ Some (texts_data one.values) }
{}
