ghost use Rattle.std.specs.Prelude.{◌≡◌};
ghost use Rattle.rule_text.specs.Words.{role_of, role_word, op_of, op_word};

use pd_types::{Op, RuleRole};

/// The role with this name.
pub fn role_of(word: &str) -> Option<RuleRole>
    ensures { result ≡ role_of word.now }
{
    if word == "voter" {
        Some(RuleRole::Voter)
    } else if word == "leader" {
        Some(RuleRole::Leader)
    } else if word == "follower" {
        Some(RuleRole::Follower)
    } else if word == "learner" {
        Some(RuleRole::Learner)
    } else {
        None
    }
}

/// The name of a role.
pub fn role_name(role: RuleRole) -> &'static str
    ensures { result.now ≡ role_word role }
{
    match role {
        RuleRole::Voter => "voter",
        RuleRole::Leader => "leader",
        RuleRole::Follower => "follower",
        RuleRole::Learner => "learner",
    }
}

/// The operator with this name.
pub fn op_of(word: &str) -> Option<Op>
    ensures { result ≡ op_of word.now }
{
    if word == "in" {
        Some(Op::In)
    } else if word == "notIn" {
        Some(Op::NotIn)
    } else if word == "exists" {
        Some(Op::Exists)
    } else if word == "notExists" {
        Some(Op::NotExists)
    } else {
        None
    }
}

/// The name of an operator.
pub fn op_name(op: Op) -> &'static str
    ensures { result.now ≡ op_word op }
{
    match op {
        Op::In => "in",
        Op::NotIn => "notIn",
        Op::Exists => "exists",
        Op::NotExists => "notExists",
    }
}
