// Conditions, and the optional one after `where`.
ghost use Rattle.model.specs.Evaluation.{worked_condition, worked_filter};
ghost use Rattle.model.specs.Kept.{CondIn, FilterIn, symbols_in};
ghost use Rattle.model.specs.Meaning.{related};
ghost use Rattle.model.specs.Model.{Cond};
ghost use Rattle.std.specs.Prelude.{◌≡◌, Option};

use crate::numbers::number;
use model::nodes::cond_node;
use model::{CondNode, Relation};

// Whether two numbers stand in a relation.
fn holds(relation: Relation, a: i64, b: i64) -> bool
    ensures { result ≡ related relation a b }
{
    match relation {
        Relation::Less => a < b,
        Relation::Equal => a == b,
        Relation::Differ => a != b,
    }
}

// Whether the condition at node k holds. Its second part is looked at only where the first holds.
pub fn condition(words: &[u64], indexes: &[u32], k: usize) -> Option<bool>
    ensures { (c : Cond) → CondIn words.now k c → result ≡ worked_condition (symbols_in words.now) indexes.now c }
{
    match cond_node(words, k)? {
        CondNode::Relate(r, i, j) => {
            let left = number(words, indexes, i)?;
            let right = number(words, indexes, j)?;
            Some(holds(r, left, right))
        }
        CondNode::Both(i, j) => {
            let first = condition(words, indexes, i)?;
            if first {
                condition(words, indexes, j)
            } else {
                Some(false)
            }
        }
    }
}

// Whether an index passes: where no condition stands all do.
pub fn passes(words: &[u64], indexes: &[u32], filter: Option<usize>) -> Option<bool>
    ensures { (c : Option Cond) → FilterIn words.now filter c → result ≡ worked_filter (symbols_in words.now) indexes.now c }
{
    match filter {
        Some(k) => condition(words, indexes, k),
        None => Some(true),
    }
}
