use crate::{Bytes, Constraints, Duplicate, NoMemory, Text, Texts};
use std::alloc::Global;

/// How many placement rules are in force at most.
pub const MAX_RULES: usize = 64;

/// How many location labels a placement rule has at most.
pub const MAX_LOCATIONS: usize = 4;

const _: () = prove!(MAX_RULES == 64 && MAX_LOCATIONS == 4);

/// How a label constraint tests the value of its label (PD documentation, "Placement Rules").
#[derive(Clone, Copy, Debug, PartialEq, Eq)]
pub enum Op {
    /// The value isn't empty and is listed.
    In,
    /// The value is empty or isn't listed.
    NotIn,
    /// The value isn't empty.
    Exists,
    /// The value is empty.
    NotExists,
}

/// A label constraint of a placement rule, on the label `key` of a store.
#[derive(Debug, Drop, PartialEq)]
pub struct Constraint {
    pub key: Text,
    pub op: Op,
    pub values: Texts,
}

/// Which peers a placement rule speaks of.
#[derive(Clone, Copy, Debug, PartialEq, Eq)]
pub enum RuleRole {
    Voter,
    Leader,
    Follower,
    Learner,
}

/// A placement rule: regions whose start key lies in the range have `count` peers of this role on
/// stores that satisfy all constraints. Rules are ordered by group, index and id, and `overrides`
/// hides the rules of its group before it.
#[derive(Debug, Drop, PartialEq)]
pub struct Rule {
    pub group: Text,
    pub id: Text,
    pub index: u32,
    pub overrides: bool,
    pub start: Bytes,
    pub end: Bytes,
    pub role: RuleRole,
    pub count: u32,
    pub constraints: Constraints,
    pub locations: Texts,
}

impl Duplicate for Constraint {
    fn copy(&self, alloc: Global) -> Result<Constraint, NoMemory> {
        Ok(Constraint {
            key: self.key.copy(alloc)?,
            op: self.op,
            values: self.values.copy(alloc)?,
        })
    }
}

impl Duplicate for Rule {
    fn copy(&self, alloc: Global) -> Result<Rule, NoMemory> {
        Ok(Rule {
            group: self.group.copy(alloc)?,
            id: self.id.copy(alloc)?,
            index: self.index,
            overrides: self.overrides,
            start: self.start.copy(alloc)?,
            end: self.end.copy(alloc)?,
            role: self.role,
            count: self.count,
            constraints: self.constraints.copy(alloc)?,
            locations: self.locations.copy(alloc)?,
        })
    }
}
