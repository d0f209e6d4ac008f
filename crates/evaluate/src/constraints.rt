// Whether constraints are met by given values of the variables.
//
// A constraint is looked at as it stands in the text, and not in its expanded rows: both sides are
// worked out for the values, and for all of a set one index after the other, up to the first that
// fails.
ghost use Rattle.std.specs.Prelude.{◌≡◌, ℕ, ◌<◌, ◌≤◌, true, [], length, Some, None, Option, slice_index_or};
ghost use Rattle.model.specs.Evaluation.{compared as compared_with, constraint_works, difference_of, instance as instance_of, run, then, where_so, worked_constraint, worked_filter};
ghost use Rattle.model.specs.Kept.{ConstraintIn, FilterIn, Keeps, LinIn, Numbered, assignment, depth, sum_depth, symbols_in};
ghost use Rattle.model.specs.Meaning.{size_of};
ghost use Rattle.model.specs.Model.{Cond, Constraint, Lin, Model};
ghost use Rattle.model.specs.Words.{constraint_count};

use crate::conditions::passes;
use crate::site::{MOST_NESTED, Site, extended};
use crate::sums::{NOTHING, whole};
use model::nodes::constraint_node;
use model::symbols::{constraint_place, set_size};
use model::{Comparison, ConstraintNode, Over, Sign};

// A difference against 0.
fn compared(c: Comparison, d: i64) -> bool
    ensures { result ≡ compared_with c d }
{
    match c {
        Comparison::AtMost => d <= 0,
        Comparison::AtLeast => d >= 0,
        Comparison::Exactly => d == 0,
    }
}

// Whether anything is worked out in the constraint at node k at all; where nothing is, it is met, and
// its sets are not gone through.
fn works(words: &[u64], k: usize) -> bool
    ensures { (c : Constraint) → ConstraintIn words.now k c → result ≡ constraint_works (symbols_in words.now) c }
{
    let Some(node) = constraint_node(words, k) else {
        return true;
    };
    match node {
        ConstraintNode::Compare(..) => true,
        ConstraintNode::All(over) => {
            set_size(words, over.set) > 0 && (over.filter.is_some() || works(words, over.body))
        }
    }
}

impl<'a> Site<'a> {
    // Two sides compared, by the left one less the right one.
    fn compare(&self, c: Comparison, left: usize, right: usize) -> Option<bool>
        ensures { (l r : Lin) → Numbered self.now.words.now → LinIn self.now.words.now left l → LinIn self.now.words.now right r → sum_depth l ≤ self.now.nest → sum_depth r ≤ self.now.nest →
            result ≡ then (difference_of (symbols_in self.now.words.now) (assignment self.now.values.now) self.now.indexes.now l r) (λ d. Some (compared_with c d)) }
    {
        let first = self.add_sum(left, Sign::Positive, NOTHING)?;
        let both = self.add_sum(right, Sign::Negative, first)?;
        Some(compared(c, whole(both)?))
    }

    // One step of a constraint for all of a set: the body, where the condition holds.
    #[cycle(constraint)]
    fn instance_met(&self, over: Over) -> Option<bool>
        ensures { (c : Option Cond) (q : Constraint) → Numbered self.now.words.now → FilterIn self.now.words.now over.filter c → ConstraintIn self.now.words.now over.body q → depth q ≤ self.now.nest →
            result ≡ where_so (worked_filter (symbols_in self.now.words.now) self.now.indexes.now c)
            (worked_constraint (symbols_in self.now.words.now) (assignment self.now.values.now) self.now.indexes.now q) (Some true) }
    {
        if passes(self.words, self.indexes, over.filter)? {
            self.constraint_met(over.body)
        } else {
            Some(true)
        }
    }

    // A constraint for all of a set, one index after the other.
    #[cycle(constraint)]
    fn all_met(&self, over: Over) -> Option<bool>
        requires { 0 < self.now.nest }
        ensures { (c : Option Cond) (q : Constraint) → Numbered self.now.words.now → FilterIn self.now.words.now over.filter c → ConstraintIn self.now.words.now over.body q → depth q < self.now.nest →
            result ≡ run (instance_of (symbols_in self.now.words.now) self.now.indexes.now c (λ js. worked_constraint (symbols_in self.now.words.now) (assignment self.now.values.now) js q))
            (size_of (symbols_in self.now.words.now) over.set) true }
    {
        for i in 0..set_size(self.words, over.set) {
            let all = extended(self.indexes, i);
            let inner = Site {
                words: self.words,
                values: self.values,
                indexes: all.as_slice(),
                nest: self.nest - 1,
            };
            if !inner.instance_met(over)? {
                return Some(false);
            }
        }
        Some(true)
    }

    // The constraint at node k, by the indexes in force. Recursion falls by `nest`.
    #[cycle(constraint)]
    fn constraint_met(&self, k: usize) -> Option<bool>
        ensures { (c : Constraint) → Numbered self.now.words.now → ConstraintIn self.now.words.now k c → depth c ≤ self.now.nest →
            result ≡ worked_constraint (symbols_in self.now.words.now) (assignment self.now.values.now) self.now.indexes.now c }
    {
        match constraint_node(self.words, k)? {
            ConstraintNode::Compare(c, i, j) => self.compare(c, i, j),
            ConstraintNode::All(over) => {
                if self.nest == 0 {
                    return None;
                }
                if !works(self.words, k) {
                    return Some(true);
                }
                self.all_met(over)
            }
        }
    }
}

// Whether constraint number i is met by the values; none where there is no such constraint, and
// where a number on the way is too large.
pub fn met(words: &[u64], values: &[u64], i: usize) -> Option<bool>
    ensures beyond { constraint_count words.now ≤ i → result ≡ None }
    ensures means { (m : Model) (c : Constraint) → Keeps words.now m → i < length m.constraints → slice_index_or m.constraints i c ≡ c → depth c ≤ 8 →
        result ≡ worked_constraint m.symbols (assignment values.now) [] c }
{
    let site = Site {
        words,
        values,
        indexes: &[],
        nest: MOST_NESTED,
    };
    site.constraint_met(constraint_place(words, i)?)
}
