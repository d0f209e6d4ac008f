// Sums: terms with signs between them, and sums over sets.
//
// A sum is kept as a chain from its first term to its last, and a node's parts stand before it. So
// the last term has to be chained first: terms wait in words of their own, two each, until the sum
// ends, and are then chained from the last back to the first. A sum inside another is lent what is left
// of those words.
ghost use Rattle.std.specs.Prelude.{◌≡◌, ℕ, ◌+◌, ◌-◌, ◌*◌, ◌<◌, ◌≤◌, List, length, Some, None};
ghost use Rattle.compose.specs.Agree.{Agree, Settled};
ghost use Rattle.expressions.specs.Made.{Made, Room, Zero};
ghost use Rattle.expressions.specs.Sums.{Follow, Item, LinMade, SignRead, Stacked, TermMade, TermsMade, Waiting, chained, deep_of, followed, inner_of, sign_after, sign_end, sign_of as signed_by, sign_word as word_of, term_at, terms_at};
ghost use Rattle.grammar.specs.Grammar.{Term};
ghost use Rattle.grammar.specs.Reading.{byte, lin as lin_at, sum_at};
ghost use Rattle.grammar.specs.Says.{term_of};
ghost use Rattle.model.specs.Kept.{LinIn};
ghost use Rattle.model.specs.Model.{nothing};
ghost use Rattle.model.specs.declared.Sign.{Sign as ASign};
ghost use Rattle.scope.specs.Names.{names_in};
ghost use Rattle.tokens.specs.Told.{Told};

use crate::context::Context;
use crate::nodes::write;
use crate::terms::after;
use crate::{At, Chain, Node, Run, TermAt};
use compose::Name;
use grammar::Refusal;
use model::{LinNode, Over, Sign};
use tokens::{LONGEST, Reserved, is_at, is_letter_at, literal, look, reserved_word, word};

// The sign at a place, if one stands there.
fn sign_at(text: &[u8], at: usize) -> Option<Sign>
    ensures { result ≡ signed_by (byte text.now at) }
{
    match look(text, at) {
        Some(b'+') => Some(Sign::Positive),
        Some(b'-') => Some(Sign::Negative),
        _ => None,
    }
}

// The sign that a word is, since terms wait in lent words. Not by TryFrom, since no other word is there.
fn sign_of(word: u64) -> Sign
    ensures { (g : ASign) → word ≡ word_of g → result ≡ g }
{
    if word == Sign::Negative as u64 {
        Sign::Negative
    } else {
        Sign::Positive
    }
}

// The sign behind a term, with a space on both sides, if one stands there.
fn sign_after(text: &[u8], term: TermAt) -> Result<Option<At<Sign>>, Refusal>
    requires inside { term.node.end ≤ length text.now }
    requires short { term.node.end ≤ 65536 }
    ensures told { (t : Term) → Told (sign_end term.node.end) (SignRead text.now term.node.end) (sign_after text.now (followed term.spaced t) term.node.end) result }
{
    let end = term.node.end;
    if !term.spaced {
        return Ok(None);
    }
    let Some(value) = sign_at(text, end) else {
        return Ok(None);
    };
    if end == LONGEST {
        return Err(Refusal::Range(LONGEST));
    }
    let end = literal(text, b" ", end + 1)?;
    Ok(Some(At { value, end }))
}

// Chains the terms that wait, the last one first.
pub(crate) fn chain(words: &mut [u64], waiting: &[u64], free: usize) -> Chain
    requires stacked { (is : List Item) × Stacked waiting.now free words.old is (length waiting.now) }
    requires some { 2 ≤ length waiting.now }
    requires room { (1810 ≤ free) × (6 * free + 9 * length waiting.now + 30 ≤ 6 * length words.old) }
    ensures next { 2 * result.next ≡ 2 * free + 3 * length waiting.now }
    ensures placed { (1808 ≤ result.place) × (result.place < result.next) }
    ensures kept { Agree 0 free words.old words.new }
    ensures tree { (is : List Item) → Stacked waiting.now free words.old is (length waiting.now) → Zero words.old → Settled 1808 result.next words.new (λ vs. LinIn vs result.place (chained is nothing)) }
{
    let mut rest = 0;
    let mut next = free;
    for term in waiting.rchunks_exact(2) {
        let node = LinNode::Chain(sign_of(term[0]), term[1] as usize, rest);
        rest = next;
        next = write(words, next, node);
    }
    Chain { place: rest, next }
}

impl<'a> Context<'a> {
    // A sum over a set, behind the word `sum`, which begins at `start`.
    #[cycle(linear)]
    #[tactic(auto, using(tokens::proofs::Steps::steps))]
    fn sum(
        &self,
        words: &mut [u64],
        pending: &mut [u64],
        free: usize,
        start: usize,
        at: usize,
    ) -> Result<Node, Refusal>
        requires room { Room (length words.old) free at }
        requires waiting { Waiting (length pending.old) at }
        requires start { start + 3 ≤ at }
        ensures told { Told (λ p. p.end) (λ t p. Made self.now.text.now start free 3 words.old words.new (λ vs k. LinIn vs k (term_of (names_in self.now.text.now self.now.scope.now) t)) p) (sum_at self.now.text.now (names_in self.now.text.now self.now.scope.now) self.now.left (length self.now.text.now + 1) (deep_of self.now.nest) (inner_of self.now.text.now (length self.now.text.now + 1) self.now.nest) start at) result }
        ensures kept { Agree 0 free words.old words.new }
    {
        let over = self.bound(start, at)?;
        let scope = self.inside(over.index);
        let inside = Context {
            text: self.text,
            scope: &scope,
            left: self.left,
            nest: self.nest - 1,
        };
        let only = inside.filter(words, free, over.index.end)?;
        if !is_at(self.text, only.end, b'(') {
            return Err(Refusal::Syntax(only.end));
        }
        if self.left == 0 {
            return Err(Refusal::Range(only.end));
        }
        let first = literal(self.text, b"(", only.end)?;
        let inner = Context {
            text: self.text,
            scope: &scope,
            left: self.left - 1,
            nest: self.nest - 1,
        };
        let body = inner.linear(words, pending, only.next, first)?;
        let end = literal(self.text, b")", body.end)?;
        let node = Over {
            set: over.set,
            filter: only.condition,
            body: body.place,
        };
        let next = write(words, body.next, LinNode::Sum(node));
        Ok(Node {
            place: body.next,
            next,
            end,
        })
    }

    // A term, and the space behind it.
    #[cycle(linear)]
    #[tactic(auto, using(tokens::proofs::Steps::steps, tokens::proofs::Steps::told_on))]
    fn term(
        &self,
        words: &mut [u64],
        pending: &mut [u64],
        free: usize,
        at: usize,
    ) -> Result<TermAt, Refusal>
        requires room { Room (length words.old) free at }
        requires waiting { Waiting (length pending.old) at }
        ensures told { Told (λ p. p.node.end) (TermMade self.now.text.now (names_in self.now.text.now self.now.scope.now) at free words.old words.new) (term_at self.now.text.now (names_in self.now.text.now self.now.scope.now) self.now.left (length self.now.text.now + 1) self.now.nest at) result }
        ensures kept { Agree 0 free words.old words.new }
    {
        if !is_letter_at(self.text, at) {
            let first = self.number(words, free, at)?;
            return self.after_number(words, first);
        }
        let end = word(self.text, at)?;
        let Some(reserved) = reserved_word(&self.text[at..end]) else {
            let first = self.named(words, free, Name { begin: at, end })?;
            return self.after_number(words, first);
        };
        if reserved != Reserved::Sum {
            return Err(Refusal::Syntax(end));
        }
        let node = self.sum(words, pending, free, at, end)?;
        after(self.text, node)
    }

    // Terms with signs between them, up to one that no sign follows.
    #[cycle(linear)]
    #[tactic(auto, using(tokens::proofs::Steps::steps))]
    pub(crate) fn terms(
        &self,
        words: &mut [u64],
        pending: &mut [u64],
        free: usize,
        at: usize,
    ) -> Result<Run, Refusal>
        requires room { Room (length words.old) free at }
        requires waiting { Waiting (length pending.old) at }
        requires inside { at ≤ length self.now.text.now }
        ensures told { (turns : ℕ) → length self.now.text.now < turns + at → Told (λ p. p.end) (TermsMade self.now.text.now (names_in self.now.text.now self.now.scope.now) at free pending.new words.new) (terms_at self.now.text.now (names_in self.now.text.now self.now.scope.now) self.now.left (length self.now.text.now + 1) self.now.nest turns at) result }
        ensures kept { Agree 0 free words.old words.new }
    {
        let mut sign = Sign::Positive;
        let mut here = at;
        let mut top = 0;
        let mut next = free;
        // not by an iterator: whether a term follows is known only when the last was read
        loop {
            let term = self.term(words, &mut pending[top..], next, here)?;
            pending[top] = sign as u64;
            pending[top + 1] = term.node.place as u64;
            top += 2;
            next = term.node.next;
            let Some(another) = sign_after(self.text, term)? else {
                return Ok(Run {
                    top,
                    next,
                    end: term.node.end,
                    spaced: term.spaced,
                });
            };
            sign = another.value;
            here = another.end;
        }
    }

    // A sum, and nothing behind it that it could go on with.
    #[cycle(linear)]
    #[tactic(auto, using(tokens::proofs::Steps::steps))]
    pub(crate) fn linear(
        &self,
        words: &mut [u64],
        pending: &mut [u64],
        free: usize,
        at: usize,
    ) -> Result<Node, Refusal>
        requires room { Room (length words.old) free at }
        requires waiting { Waiting (length pending.old) at }
        requires inside { at ≤ length self.now.text.now }
        ensures told { Told (λ p. p.end) (LinMade self.now.text.now (names_in self.now.text.now self.now.scope.now) at free words.old words.new) (lin_at self.now.text.now (length self.now.text.now + 1) self.now.nest (names_in self.now.text.now self.now.scope.now) self.now.left at) result }
        ensures kept { Agree 0 free words.old words.new }
    {
        let found = self.terms(words, pending, free, at)?;
        if found.spaced {
            return Err(Refusal::Syntax(found.end));
        }
        let sum = chain(words, &pending[..found.top], found.next);
        Ok(Node {
            place: sum.place,
            next: sum.next,
            end: found.end,
        })
    }
}
