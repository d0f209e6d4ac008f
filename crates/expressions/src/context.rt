// What is around a place of the text.
ghost use Rattle.std.specs.Prelude.{◌≡◌, ◌+◌, ◌<◌, ◌≤◌, length};
ghost use Rattle.grammar.specs.Reading.{one_byte as one_byte_at};
ghost use Rattle.tokens.specs.Told.{Told};
ghost use Rattle.expressions.specs.Signs.{Stands};

use crate::At;
use grammar::Refusal;
use scope::Scope;
use tokens::LONGEST;

// The text, the names in force, and how many brackets, and how many sums and alls, may still be opened
// within each other.
#[derive(Clone, Copy)]
pub(crate) struct Context<'a> {
    pub(crate) text: &'a [u8],
    pub(crate) scope: &'a Scope,
    pub(crate) left: usize,
    pub(crate) nest: usize,
    ghost few: { length scope.now + nest ≤ 56 },
}

// What one byte means, which stands at a place.
pub(crate) fn one_byte<T: Copy>(text: &[u8], at: usize, value: T) -> Result<At<T>, Refusal>
    requires short { at ≤ 65536 }
    requires inside { at < length text.now }
    ensures told { Told (λ p. p.end) (Stands text.now at) (one_byte_at at value) result }
{
    if at == LONGEST {
        return Err(Refusal::Range(LONGEST));
    }
    Ok(At { value, end: at + 1 })
}
