// Numbers, which have any number of digits.
ghost use Rattle.std.specs.Prelude.{◌≡◌, ◌+◌, true, length};
ghost use Rattle.grammar.specs.Grammar.{is_top, whole};
ghost use Rattle.grammar.specs.Reading.{byte, in_length, digits_at};
ghost use Rattle.tokens.specs.Sizes.{Counts, NumeralTold};
ghost use Rattle.tokens.specs.Told.{Told};

use crate::Number;
use crate::bytes::{LONGEST, look};
use grammar::Refusal;

// What stands for every larger size.
const TOO_LARGE: u32 = 1_000_001;

// The number whose digits begin at a place, where one from 1 to 9 stands.
fn digits(text: &[u8], at: usize) -> Result<Number, Refusal>
    requires { is_top (byte text.now at) ≡ true }
    ensures told { Told (λ p. p.end) (Counts text.now at) (in_length (whole (byte text.now at) (digits_at text.now (at + 1))) (at + 1 + length (digits_at text.now (at + 1)))) result }
{
    let mut size = 0;
    for here in at..=LONGEST {
        let Some(digit @ b'0'..=b'9') = look(text, here) else {
            return Ok(Number {
                end: here,
                value: i64::from(size),
            });
        };
        size = (size * 10 + u32::from(digit - b'0')).min(TOO_LARGE);
    }
    Err(Refusal::Range(LONGEST))
}

// 0, which stands at a place, alone.
#[tactic(auto, using(crate::proofs::Counted::noughts))]
fn nought(text: &[u8], at: usize) -> Result<Number, Refusal>
    requires { byte text.now at ≡ 48 }
    ensures told { NumeralTold text.now at result }
{
    if at == LONGEST {
        return Err(Refusal::Range(LONGEST));
    }
    let end = at + 1;
    if look(text, end).is_some_and(|c| c.is_ascii_digit()) {
        return Err(Refusal::Syntax(end));
    }
    Ok(Number { end, value: 0 })
}

// The number behind a minus, which stands at a place.
#[tactic(auto, using(crate::proofs::Counted::minuses))]
fn behind_minus(text: &[u8], at: usize) -> Result<Number, Refusal>
    requires { byte text.now at ≡ 45 }
    ensures told { NumeralTold text.now at result }
{
    if at == LONGEST {
        return Err(Refusal::Range(LONGEST));
    }
    let first = at + 1;
    let Some(b'1'..=b'9') = look(text, first) else {
        return Err(Refusal::Syntax(first));
    };
    let Number { end, value } = digits(text, first)?;
    Ok(Number { end, value: -value })
}

// The number that stands at a place: 0 alone, or digits that do not begin with 0, perhaps behind a
// minus.
#[tactic(auto, using(crate::proofs::Counted::numerals))]
pub fn numeral(text: &[u8], at: usize) -> Result<Number, Refusal>
    ensures told { NumeralTold text.now at result }
{
    match look(text, at) {
        Some(b'0') => nought(text, at),
        Some(b'1'..=b'9') => digits(text, at),
        Some(b'-') => behind_minus(text, at),
        _ => Err(Refusal::Syntax(at)),
    }
}
