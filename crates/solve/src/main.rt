// Solves a model and prints what was found out. The work is the library's: this
// program reads the text and lends the bytes for the line.
#![tactic(auto)]

use solver::Outcome;
use std::io::Write;
use std::process::ExitCode;
use std::{env, io};

const USAGE: &str = "\
usage: solve [MODEL] [SHEET]

Solves the model in the file MODEL, or on standard input where no file is named,
and prints what was found out:

    best COST    values at this cost meet every wish, and none cost less
    none         no values meet every wish
    too long     not found out

No model can be read yet, so `too long` is what it says of every text. SHEET, the
file for a certificate, is not written yet.
";

// More than the longest line has.
const LINE: usize = 64;

// Not by `{}`: a `Display` may fail after it has written something else, and no contract says that it
// does not. What `tell` says holds of every outcome.
fn print(rt: &HostRuntime, outcome: Outcome) -> io::Result<()> {
    let mut printed = [0u8; LINE];
    let Some(len) = solver::tell(outcome, &mut printed) else {
        return Err(io::Error::other("the line has no room"));
    };
    rt.stdout().write_all(&printed[..len])
}

fn run(rt: &HostRuntime, model: Option<&str>) -> io::Result<()> {
    let text = console::read(rt, "solve", model)?;
    print(rt, solver::solve(&text))
}

// Each program matches its own words: this one takes a file or none, `check` wants two.
fn program(rt: &HostRuntime) -> io::Result<()> {
    // the first word is the program's own name
    match env::args(rt)?.nth(1).as_deref() {
        Some("--help") => print!(rt; "{USAGE}"),
        model => run(rt, model),
    }
}

fn main(rt: HostRuntime) -> ExitCode {
    console::status(program(&rt))
}
