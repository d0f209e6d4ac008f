// Numbers: fixed ones, indexes, entries of tables, and these joined.
ghost use Rattle.integer.specs.Checked.{checked};
ghost use Rattle.model.specs.Evaluation.{worked_number};
ghost use Rattle.model.specs.Kept.{NumIn, symbols_in};
ghost use Rattle.model.specs.Meaning.{operate};
ghost use Rattle.model.specs.Model.{Num};
ghost use Rattle.std.specs.Prelude.{◌≡◌, pos, slice_index};

use integer::checked::{difference, in_range, product, sum};
use model::nodes::num_node;
use model::symbols::table_entry;
use model::{NumNode, Operator};

// The index that is bound by the sum or all with l others around it; 0 where there is none.
fn index(indexes: &[u32], l: usize) -> i64
    ensures { result ≡ pos (slice_index indexes.now l) }
{
    i64::from(indexes.get(l).copied().unwrap_or(0))
}

// Two numbers joined.
fn joined(o: Operator, a: i64, b: i64) -> Option<i64>
    ensures { result ≡ checked (operate o a b) }
{
    match o {
        Operator::Plus => sum(a, b),
        Operator::Minus => difference(a, b),
        Operator::Times => product(a, b),
    }
}

// What the number at node k comes to for the indexes in force, the outermost first.
pub fn number(words: &[u64], indexes: &[u32], k: usize) -> Option<i64>
    ensures { (e : Num) → NumIn words.now k e → result ≡ worked_number (symbols_in words.now) indexes.now e }
{
    match num_node(words, k)? {
        NumNode::Fixed(a) => in_range(a),
        NumNode::Index(l) => in_range(index(indexes, l)),
        NumNode::Entry(t, i, j) => {
            let row = number(words, indexes, i)?;
            let column = number(words, indexes, j)?;
            in_range(table_entry(words, t, row, column))
        }
        NumNode::Op(o, i, j) => {
            let left = number(words, indexes, i)?;
            let right = number(words, indexes, j)?;
            joined(o, left, right)
        }
    }
}
