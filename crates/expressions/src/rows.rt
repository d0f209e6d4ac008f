// Constraints: two sums compared, or a constraint for all of a set. And what other crates read.
ghost use Rattle.std.specs.Prelude.{◌≡◌, ◌+◌, ◌-◌, ◌*◌, ◌<◌, ◌≤◌, length, is_some, None, IfSome};
ghost use Rattle.compose.specs.Agree.{Agree};
ghost use Rattle.expressions.specs.Made.{Room};
ghost use Rattle.expressions.specs.Signs.{Stands};
ghost use Rattle.expressions.specs.Sums.{AllWord, LinMade, RowMade, ready as is_ready, second_byte, sides_at};
ghost use Rattle.grammar.specs.Reading.{comparison as comparison_at, lin as lin_at, row as row_at};
ghost use Rattle.scope.specs.Names.{names_in};
ghost use Rattle.tokens.specs.Told.{Told};

use crate::context::{Context, one_byte};
use crate::nodes::write;
use crate::sums::chain;
use crate::{At, Node};
use grammar::Refusal;
use model::{Comparison, ConstraintNode, Over};
use scope::Scope;
use tokens::{LONGEST, literal, look, word};

// Brackets stand within each other at most so deep, and so do sums and alls.
const MOST_BRACKETS: usize = 64;

const MOST_NESTED: usize = 8;

// The first word behind the heads and the node of 0.
const FIRST_FREE: usize = 1810;

// Terms wait in so many words at most, two each, since each takes four bytes of the text.
const MOST_WAITING: usize = 32_772;

// Sets, tables and arrays.
const MOST_DECLARED: usize = 48;

// A comparison of two bytes, of which the first stands at a place.
#[tactic(auto, using(tokens::proofs::Steps::steps), unfolding(crate::specs::Sums::second_byte))]
fn with_equals(text: &[u8], at: usize, value: Comparison) -> Result<At<Comparison>, Refusal>
    requires short { at ≤ 65536 }
    requires inside { at < length text.now }
    ensures told { Told (λ p. p.end) (Stands text.now at) (second_byte text.now value at) result }
{
    if at == LONGEST {
        return Err(Refusal::Range(LONGEST));
    }
    let end = literal(text, b"=", at + 1)?;
    Ok(At { value, end })
}

// The comparison at a place.
#[tactic(auto, using(tokens::proofs::Steps::told_on), unfolding(grammar::specs::Reading::comparison, crate::specs::Sums::second_byte))]
fn comparison(text: &[u8], at: usize) -> Result<At<Comparison>, Refusal>
    requires { at ≤ 65536 }
    ensures told { Told (λ p. p.end) (Stands text.now at) (comparison_at text.now at) result }
{
    match look(text, at) {
        Some(b'<') => with_equals(text, at, Comparison::AtMost),
        Some(b'>') => with_equals(text, at, Comparison::AtLeast),
        Some(b'=') => one_byte(text, at, Comparison::Exactly),
        _ => Err(Refusal::Syntax(at)),
    }
}

// Where the word `all` ends, if it stands at a place.
fn all_word(text: &[u8], at: usize) -> Option<usize>
    ensures { AllWord text.now at result }
{
    let end = word(text, at).ok()?;
    match &text[at..end] {
        b"all" => Some(end),
        _ => None,
    }
}

impl<'a> Context<'a> {
    // Two sums, compared.
    #[tactic(auto, using(tokens::proofs::Steps::steps), unfolding(crate::specs::Sums::sides_at))]
    fn sides(
        &self,
        words: &mut [u64],
        pending: &mut [u64],
        free: usize,
        at: usize,
    ) -> Result<Node, Refusal>
        requires room { Room (length words.old) free at }
        requires waiting { 32772 ≤ length pending.old }
        requires inside { at ≤ length self.now.text.now }
        requires brackets { self.now.left ≡ 64 }
        ensures told { Told (λ p. p.end) (RowMade self.now.text.now (names_in self.now.text.now self.now.scope.now) at free words.old words.new) (sides_at self.now.text.now (names_in self.now.text.now self.now.scope.now) (length self.now.text.now + 1) self.now.nest at) result }
        ensures kept { Agree 0 free words.old words.new }
    {
        let found = self.terms(words, pending, free, at)?;
        if !found.spaced {
            return Err(Refusal::Syntax(found.end));
        }
        let sign = comparison(self.text, found.end)?;
        let here = literal(self.text, b" ", sign.end)?;
        let first = chain(words, &pending[..found.top], found.next);
        let second = self.linear(words, pending, first.next, here)?;
        let node = ConstraintNode::Compare(sign.value, first.place, second.place);
        let next = write(words, second.next, node);
        Ok(Node {
            place: second.next,
            next,
            end: second.end,
        })
    }

    // A constraint: two sums, compared, or a constraint for all of a set.
    #[tactic(auto, using(tokens::proofs::Steps::steps, tokens::proofs::Steps::told_on))]
    fn row(
        &self,
        words: &mut [u64],
        pending: &mut [u64],
        free: usize,
        at: usize,
    ) -> Result<Node, Refusal>
        requires room { Room (length words.old) free at }
        requires waiting { 32772 ≤ length pending.old }
        requires inside { at ≤ length self.now.text.now }
        requires brackets { self.now.left ≡ 64 }
        ensures told { Told (λ p. p.end) (RowMade self.now.text.now (names_in self.now.text.now self.now.scope.now) at free words.old words.new) (row_at self.now.text.now (length self.now.text.now + 1) self.now.nest (names_in self.now.text.now self.now.scope.now) at) result }
        ensures kept { Agree 0 free words.old words.new }
    {
        let Some(end) = all_word(self.text, at) else {
            return self.sides(words, pending, free, at);
        };
        let over = self.bound(at, end)?;
        let scope = self.inside(over.index);
        let inside = Context {
            text: self.text,
            scope: &scope,
            left: self.left,
            nest: self.nest - 1,
        };
        let only = inside.filter(words, free, over.index.end)?;
        let body = inside.row(words, pending, only.next, only.end)?;
        let node = Over {
            set: over.set,
            filter: only.condition,
            body: body.place,
        };
        let next = write(words, body.next, ConstraintNode::All(node));
        Ok(Node {
            place: body.next,
            next,
            end: body.end,
        })
    }
}

// What is around a place outside of all sums and alls, where there is room for all that the text may
// still hold.
fn outside<'a>(
    text: &'a [u8],
    scope: &'a Scope,
    words: &[u64],
    pending: &[u64],
    free: usize,
    at: usize,
) -> Option<Context<'a>>
    ensures ready { is_some result ≡ is_ready (length text.now) (length words.now) (length pending.now) (length scope.now) free at }
    ensures around { IfSome result (λ c. (c.text.now ≡ text.now) × (c.scope.now ≡ scope.now) × (c.left ≡ 64) × (c.nest ≡ 8)) }
{
    let len = words.len();
    if at > text.len()
        || at > LONGEST
        || free < FIRST_FREE
        || pending.len() < MOST_WAITING
        || scope.len() > MOST_DECLARED
        || 3 * (free as u128) + 4 * ((LONGEST - at) as u128) + 60 > 3 * (len as u128)
    {
        return None;
    }
    Some(Context {
        text,
        scope,
        left: MOST_BRACKETS,
        nest: MOST_NESTED,
    })
}

// The linear sum at a place; nothing where there is no room for what a text may hold. Otherwise all of
// `pending` and the words from `free` on are its own: what lies behind the node that it returns is free
// again, and may hold anything.
pub fn linear_sum(
    text: &[u8],
    scope: &Scope,
    words: &mut [u64],
    pending: &mut [u64],
    free: usize,
    at: usize,
) -> Option<Result<Node, Refusal>>
    ensures ready { is_some result ≡ is_ready (length text.now) (length words.old) (length pending.old) (length scope.now) free at }
    ensures refused { result ≡ None → words.new ≡ words.old }
    ensures spared { result ≡ None → pending.new ≡ pending.old }
    ensures told { IfSome result (λ q. Told (λ p. p.end) (LinMade text.now (names_in text.now scope.now) at free words.old words.new) (lin_at text.now (length text.now + 1) 8 (names_in text.now scope.now) 64 at) q) }
    ensures kept { Agree 0 free words.old words.new }
{
    let around = outside(text, scope, words, pending, free, at)?;
    Some(around.linear(words, pending, free, at))
}

// The constraint at a place, likewise. Two functions: what they share is `outside`, and all that is left of
// each is what it reads.
pub fn constraint(
    text: &[u8],
    scope: &Scope,
    words: &mut [u64],
    pending: &mut [u64],
    free: usize,
    at: usize,
) -> Option<Result<Node, Refusal>>
    ensures ready { is_some result ≡ is_ready (length text.now) (length words.old) (length pending.old) (length scope.now) free at }
    ensures refused { result ≡ None → words.new ≡ words.old }
    ensures spared { result ≡ None → pending.new ≡ pending.old }
    ensures told { IfSome result (λ q. Told (λ p. p.end) (RowMade text.now (names_in text.now scope.now) at free words.old words.new) (row_at text.now (length text.now + 1) 8 (names_in text.now scope.now) at) q) }
    ensures kept { Agree 0 free words.old words.new }
{
    let around = outside(text, scope, words, pending, free, at)?;
    Some(around.row(words, pending, free, at))
}
