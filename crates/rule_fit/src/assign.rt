ghost use Rattle.std.specs.Prelude.{◌≡◌, ◌≤◌, length, IfOk};
ghost use Rattle.rule_fit.specs.Assignment.{placed, IsAssignment, IsGreatest};
ghost use Rattle.rule_fit.specs.Table.{suits};
ghost use Rattle.rule_fit.specs.Search.{IsClosed};
ghost use Rattle.pd_types.specs.declared.rule.TheConstants.{MAX_RULES};

use crate::search::{Found, augment, search};
use pd_types::NoMemory;
use std::alloc::Global;

/// A greatest assignment, and the peers that the last search reached.
#[derive(Debug, Drop)]
pub struct Matching {
    pub given: Vec<Option<u32>>,
    pub reached: Vec<bool>,
}

/// Gives the most peers a rule.
pub fn greatest(alloc: Global, table: &[Vec<bool>], counts: &[u32]) -> Result<Matching, NoMemory>
    requires { length counts.now ≤ MAX_RULES }
    ensures assigned { IfOk result (λ g. IsAssignment (suits table.now) (length table.now) counts.now g.given.items) }
    ensures greatest { IfOk result (λ g. IsGreatest (suits table.now) (length table.now) counts.now g.given.items) }
    ensures closed { IfOk result (λ g. IsClosed (suits table.now) (length table.now) counts.now g.given.items g.reached.items) }
{
    let mut given = vec![in alloc; None; table.len()]?;
    loop {
        match search(alloc, table, counts, &given)? {
            Found::Path { queue, last, rule } => {
                augment(table, counts, &queue, &mut given, last, rule);
            }
            Found::Closed { reached } => return Ok(Matching { given, reached }),
        }
    }
}

/// How many peers have a rule.
pub fn placed(given: &[Option<u32>]) -> usize
    ensures { result ≡ placed given.now }
{
    given.iter().filter(|place| place.is_some()).count()
}
