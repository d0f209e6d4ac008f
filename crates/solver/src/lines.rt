// How outcomes are told: a text, which `{}` prints, and the line of it.
ghost use Rattle.std.specs.Prelude.{◌≡◌, ◌≤◌, Some};
ghost use Rattle.arrayvec.specs.ArrayString.{array_string_len};
ghost use Rattle.solver.specs.Lines.{line_of, text_of};

use crate::Outcome;
use arrayvec::ArrayString;
use std::fmt;

// `best `, a minus, the 19 digits of the largest numbers, and a newline.
const LONGEST: usize = 26;

impl fmt::Display for Outcome {
    ghost output = { λ outcome. Some (text_of outcome) };

    fn fmt<W: fmt::Write>(&self, f: &mut fmt::Formatter<W>) -> fmt::Result {
        f.write_str(text(*self).as_str())
    }
}

// The text that tells an outcome. It leaves room for a newline.
// Not by `write!`: no contract says when that succeeds, and a line that fits is always told.
fn text(outcome: Outcome) -> ArrayString<LONGEST>
    ensures bytes { result.bytes ≡ text_of outcome }
    ensures short { array_string_len result ≤ 25 }
{
    let mut text = ArrayString::new();
    match outcome {
        Outcome::Best { cost } => {
            text.push_str("best ");
            text.push_str(itoa::Buffer::new().format(cost));
        }
        Outcome::Infeasible => text.push_str("none"),
        Outcome::TooLong => text.push_str("too long"),
    }
    text
}

// The line that tells it.
pub(crate) fn line(outcome: Outcome) -> ArrayString<LONGEST>
    ensures { result.bytes ≡ line_of outcome }
{
    let mut line = text(outcome);
    line.push('\n');
    line
}
