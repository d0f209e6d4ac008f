// Linear sums for given values of the variables.
//
// A sum is carried from term to term as two numbers: its constant, and what its terms with
// variables come to. Each has a bound of its own in a model that was expanded (the constant stays
// below 2^62 on the way, the terms below 2^61 between their bounds), which their sum has not.
ghost use Rattle.std.specs.Prelude.{◌≡◌, ℕ, ◌<◌, ◌≤◌, [], ◌+ℤ◌, Some, Option};
ghost use Rattle.integer.specs.Checked.{checked};
ghost use Rattle.model.specs.Evaluation.{run, sign_of, sum_works, summand as summand_of, then, where_so, whole as whole_of, with_constant, with_term, worked_filter, worked_number, worked_sum, worked_value};
ghost use Rattle.model.specs.Kept.{FilterIn, LinIn, NumIn, Numbered, assignment, sum_depth, symbols_in};
ghost use Rattle.model.specs.Meaning.{signed, size_of};
ghost use Rattle.model.specs.Model.{Cond, Lin, Num, sum_over, term as term_of};

use crate::conditions::passes;
use crate::numbers::number;
use crate::site::{MOST_NESTED, Site, extended};
use integer::checked::{difference, product, sum};
use model::nodes::lin_node;
use model::symbols::{set_size, variable};
use model::{LinNode, Over, Running, Sign, TermNode};

// A sum before its first term.
pub(crate) const NOTHING: Running = Running {
    constant: 0,
    terms: 0,
};

// One number and another behind its sign.
fn joined(sign: Sign, a: i64, b: i64) -> Option<i64>
    ensures { result ≡ checked (a +ℤ signed sign b) }
{
    match sign {
        Sign::Positive => sum(a, b),
        Sign::Negative => difference(a, b),
    }
}

fn add_constant(sign: Sign, a: i64, so_far: Running) -> Option<Running>
    ensures { result ≡ with_constant sign a so_far }
{
    let constant = joined(sign, so_far.constant, a)?;
    Some(Running { constant, ..so_far })
}

fn add_term(sign: Sign, a: i64, value: i64, so_far: Running) -> Option<Running>
    ensures { result ≡ with_term sign a value so_far }
{
    let terms = joined(sign, so_far.terms, product(a, value)?)?;
    Some(Running { terms, ..so_far })
}

// The sign of a term that stands behind a sign, in a sum that stands behind another.
fn sign_under(outer: Sign, inner: Sign) -> Sign
    ensures { result ≡ sign_of outer inner }
{
    if outer == inner {
        Sign::Positive
    } else {
        Sign::Negative
    }
}

// The value of a variable; 0 beyond those that are given.
fn value_of(values: &[u64], u: usize) -> i64
    ensures { result ≡ assignment values.now u }
{
    values.get(u).copied().unwrap_or(0).cast_signed()
}

// What both parts of a sum come to.
pub(crate) fn whole(r: Running) -> Option<i64>
    ensures { result ≡ whole_of r }
{
    sum(r.constant, r.terms)
}

// Whether anything is worked out at all in what goes through a set. Where nothing is, the set is not
// gone through: eight sets of 1,000 within each other, with an empty one inside, would take for ever.
#[cycle(works)]
fn over_works(words: &[u64], over: Over) -> bool
    ensures { (c : Option Cond) (l : Lin) → FilterIn words.now over.filter c → LinIn words.now over.body l →
        result ≡ sum_works (symbols_in words.now) (sum_over over.set c l) }
{
    set_size(words, over.set) > 0 && (over.filter.is_some() || works(words, over.body))
}

// The same of the sum at node k.
#[cycle(works)]
fn works(words: &[u64], k: usize) -> bool
    ensures { (l : Lin) → LinIn words.now k l → result ≡ sum_works (symbols_in words.now) l }
{
    let mut at = k;
    // not by an iterator: a chain ends with a part of another sort, and that it ends is told by that alone
    'chain: loop {
        let Some(node) = lin_node(words, at) else {
            return true;
        };
        match node {
            LinNode::Chain(_, t, rest) => {
                if works(words, t) {
                    return true;
                }
                at = rest;
            }
            LinNode::Sum(over) => return over_works(words, over),
            LinNode::Nothing => return false,
            LinNode::Amount | LinNode::Term(_) => return true,
        }
    }
}

impl<'a> Site<'a> {
    // A number times a variable, added to what was there. Where the variable is not there, nothing is
    // added and the number is not worked out.
    fn add_weighted(&self, t: TermNode, sign: Sign, so_far: Running) -> Option<Running>
        ensures { (e f g : Num) → Numbered self.now.words.now → NumIn self.now.words.now t.number e → NumIn self.now.words.now t.row f →
            NumIn self.now.words.now t.column g →
            result ≡ worked_sum (symbols_in self.now.words.now) (assignment self.now.values.now) sign self.now.indexes.now (term_of e t.array f g) so_far }
    {
        let row = number(self.words, self.indexes, t.row)?;
        let column = number(self.words, self.indexes, t.column)?;
        let Some(u) = variable(self.words, t.array, row, column) else {
            return Some(so_far);
        };
        let a = number(self.words, self.indexes, t.number)?;
        add_term(sign, a, value_of(self.values, u), so_far)
    }

    // A number by itself, added to what was there.
    fn add_amount(&self, k: usize, sign: Sign, so_far: Running) -> Option<Running>
        ensures { (e : Num) → NumIn self.now.words.now k e →
            result ≡ then (worked_number (symbols_in self.now.words.now) self.now.indexes.now e) (λ a. with_constant sign a so_far) }
    {
        let a = number(self.words, self.indexes, k)?;
        add_constant(sign, a, so_far)
    }

    // One step of a sum over a set: the body, where the condition holds.
    #[cycle(sum)]
    fn add_summand(&self, over: Over, sign: Sign, so_far: Running) -> Option<Running>
        ensures { (c : Option Cond) (l : Lin) → Numbered self.now.words.now → FilterIn self.now.words.now over.filter c → LinIn self.now.words.now over.body l → sum_depth l ≤ self.now.nest →
            result ≡ where_so (worked_filter (symbols_in self.now.words.now) self.now.indexes.now c)
            (worked_sum (symbols_in self.now.words.now) (assignment self.now.values.now) sign self.now.indexes.now l so_far) (Some so_far) }
    {
        if passes(self.words, self.indexes, over.filter)? {
            self.add_sum(over.body, sign, so_far)
        } else {
            Some(so_far)
        }
    }

    // A sum over a set, one index after the other. `nest` is how many sums over sets may stand within
    // each other here, this one among them. It is not inlined into `add_sum`, which calls itself for each
    // chain in a chain, and would take the indexes of a set along on the stack.
    #[cycle(sum)]
    #[inline(never)]
    fn add_over(&self, over: Over, sign: Sign, so_far: Running) -> Option<Running>
        ensures { (c : Option Cond) (l : Lin) → Numbered self.now.words.now → FilterIn self.now.words.now over.filter c → LinIn self.now.words.now over.body l → sum_depth l < self.now.nest →
            result ≡ run (summand_of (symbols_in self.now.words.now) self.now.indexes.now c (λ js. worked_sum (symbols_in self.now.words.now) (assignment self.now.values.now) sign js l))
            (size_of (symbols_in self.now.words.now) over.set) so_far }
    {
        if self.nest == 0 {
            return None;
        }
        if !over_works(self.words, over) {
            return Some(so_far);
        }
        let mut running = so_far;
        for i in 0..set_size(self.words, over.set) {
            let all = extended(self.indexes, i);
            let inner = Site {
                words: self.words,
                values: self.values,
                indexes: all.as_slice(),
                nest: self.nest - 1,
            };
            running = inner.add_summand(over, sign, running)?;
        }
        Some(running)
    }

    // The sum at node k, added to what was there behind a sign. A chain is gone through from its first
    // term on; sums over sets within each other make `nest` fall.
    #[cycle(sum)]
    pub(crate) fn add_sum(&self, k: usize, sign: Sign, so_far: Running) -> Option<Running>
        ensures { (l : Lin) → Numbered self.now.words.now → LinIn self.now.words.now k l → sum_depth l ≤ self.now.nest →
            result ≡ worked_sum (symbols_in self.now.words.now) (assignment self.now.values.now) sign self.now.indexes.now l so_far }
    {
        let mut at = k;
        let mut running = so_far;
        // not by an iterator: a chain ends with a part of another sort, and that it ends is told by that alone
        'chain: loop {
            match lin_node(self.words, at)? {
                LinNode::Chain(inner, t, rest) => {
                    running = self.add_sum(t, sign_under(sign, inner), running)?;
                    at = rest;
                }
                LinNode::Nothing => return Some(running),
                LinNode::Amount => return self.add_amount(at, sign, running),
                LinNode::Term(t) => return self.add_weighted(t, sign, running),
                LinNode::Sum(over) => return self.add_over(over, sign, running),
            }
        }
    }
}

// What the sum at node k comes to, outside of all sets.
pub fn linear_sum(words: &[u64], values: &[u64], k: usize) -> Option<i64>
    ensures { (l : Lin) → Numbered words.now → LinIn words.now k l → sum_depth l ≤ 8 →
        result ≡ worked_value (symbols_in words.now) (assignment values.now) [] l }
{
    let site = Site {
        words,
        values,
        indexes: &[],
        nest: MOST_NESTED,
    };
    whole(site.add_sum(k, Sign::Positive, NOTHING)?)
}
