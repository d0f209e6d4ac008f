// Numbers that have to be in range.
ghost use Rattle.std.specs.Prelude.{◌≡◌, ◌≤◌, nat_le};
ghost use Rattle.grammar.specs.Grammar.{Numeral};
ghost use Rattle.grammar.specs.Reading.{size, within};
ghost use Rattle.reader.specs.Numbers.{Tells, number_at, size_at};
ghost use Rattle.reader.specs.Lines.{NumberRead, SizeRead};
ghost use Rattle.tokens.specs.Told.{Told};

use crate::SizeAt;
use grammar::Refusal;
use tokens::{Number, literal, numeral};

// The largest size of a set, and the most rows or columns.
const LARGEST_SIZE: i64 = 1_000;

// Whether a number is a size, which is `least` or more.
pub(crate) fn is_size(number: Number, least: u32) -> bool
    ensures { (n : Numeral) → Tells n number → result ≡ within least 1000 n }
{
    (i64::from(least)..=LARGEST_SIZE).contains(&number.value)
}

// Whether a number without its sign is at most so much. A number above a million is told as one
// more than a million, so that no larger bound can be tested.
pub(crate) fn is_at_most(number: Number, most: u32) -> bool
    requires { most ≤ 1000000 }
    ensures { (n : Numeral) → Tells n number → result ≡ nat_le (size n) most }
{
    number.value.unsigned_abs() <= u64::from(most)
}

// A number whose size is at most so much.
#[tactic(auto, using(tokens::proofs::Steps::steps, crate::proofs::Ranges::number_made), unfolding(crate::specs::Numbers::number_at))]
pub(crate) fn number(text: &[u8], most: u32, at: usize) -> Result<Number, Refusal>
    requires { most ≤ 1000000 }
    ensures told { Told (λ p. p.end) (NumberRead text.now most at) (number_at text.now most at) result }
{
    let found = numeral(text, at)?;
    if !is_at_most(found, most) {
        return Err(Refusal::Range(at));
    }
    Ok(found)
}

// A space and a size, which is `least` or more. One that is out of range is told at its line.
#[tactic(auto, using(tokens::proofs::Steps::steps), unfolding(crate::specs::Numbers::size_at))]
pub(crate) fn size(text: &[u8], least: u32, line: usize, at: usize) -> Result<SizeAt, Refusal>
    ensures told { Told (λ p. p.end) (SizeRead text.now least at) (size_at text.now least line at) result }
{
    let begin = literal(text, b" ", at)?;
    let found = numeral(text, begin)?;
    if !is_size(found, least) {
        return Err(Refusal::Range(line));
    }
    Ok(SizeAt {
        size: found.value as usize,
        end: found.end,
    })
}
