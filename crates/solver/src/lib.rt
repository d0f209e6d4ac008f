// The solver: the entries that the programs and other callers use.
// It can read no text yet, so it finds nothing out, and says so. Nothing here
// allocates: a caller lends the bytes that are written.
#![tactic(auto)]

ghost use Rattle.solver.specs.Lines.{fits, line_of, told};
ghost use Rattle.solver.specs.NotYet.{words_of};
ghost use Rattle.std.specs.Prelude.{◌≡◌, length, if◌then◌else◌, Some, None, Err};

mod lines;

use std::error::Error;
use std::fmt;

// What was found out about a model.
#[derive(Clone, Copy, Debug, PartialEq)]
pub enum Outcome {
    // A feasible assignment at this cost; none costs less.
    Best { cost: i64 },
    // No assignment is feasible.
    Infeasible,
    // Not found out.
    TooLong,
}

// Solves the model that the text describes.
// That nothing was found out is always right to say. It is all that can be said
// while no text can be read, and is replaced as soon as one can.
pub fn solve(_text: &[u8]) -> Outcome
    ensures { result ≡ Outcome.TooLong }
{
    Outcome::TooLong
}

// What is not there yet.
#[derive(Clone, Copy, Debug, PartialEq)]
pub enum NotYet {
    Certificates,
    Texts,
}

impl fmt::Display for NotYet {
    ghost output = { λ missing. Some (words_of missing) };

    fn fmt<W: fmt::Write>(&self, f: &mut fmt::Formatter<W>) -> fmt::Result {
        f.write_str(match self {
            NotYet::Certificates => "not there yet: no certificate can be checked",
            NotYet::Texts => "not there yet: no model can be read",
        })
    }
}

impl Error for NotYet {}

// Whether a certificate shows what it tells of the model in the text. As long as no certificate can
// be read none is accepted.
pub fn check(_text: &[u8], _sheet: &[u8]) -> Result<bool, NotYet>
    ensures { result ≡ Err NotYet.Certificates }
{
    Err(NotYet::Certificates)
}

// Writes the model in the text anew, and says how many bytes that took. As long as no text can be
// read nothing is written.
pub fn rewrite(_text: &[u8], printed: &mut [u8]) -> Result<usize, NotYet>
    ensures value { result ≡ Err NotYet.Texts }
    ensures same { printed.new ≡ printed.old }
{
    Err(NotYet::Texts)
}

// Writes the line that tells an outcome, with its newline, at the start of the lent
// bytes, and says how many bytes it has. Where it does not fit, nothing is written.
pub fn tell(outcome: Outcome, printed: &mut [u8]) -> Option<usize>
    ensures value { result ≡ (if fits outcome printed.old then Some (length (line_of outcome)) else None) }
    ensures bytes { printed.new ≡ told outcome printed.old }
{
    let line = lines::line(outcome);
    let line = line.as_str().as_bytes();
    if printed.len() < line.len() {
        return None;
    }
    printed[..line.len()].copy_from_slice(line);
    Some(line.len())
}
