// Checks a certificate against its model. The work is the library's: this program reads the two files.
#![tactic(auto)]

use std::process::ExitCode;
use std::{env, io};

const USAGE: &str = "\
usage: check MODEL SHEET

Checks that the certificate in the file SHEET fits the model in the file MODEL.
It is not there yet: no certificate can be checked.
";

fn run(rt: &HostRuntime, model: &str, sheet: &str) -> io::Result<()> {
    let text = console::read_file(rt, "check", model)?;
    let bytes = console::read_file(rt, "check", sheet)?;
    match solver::check(&text, &bytes) {
        Ok(_) => Ok(()),
        Err(missing) => eprintln!(rt; "check: {missing}"),
    }
}

// Wrong words on the command line: how it is used, and status 1.
fn misused(rt: &HostRuntime) -> io::Result<()> {
    eprint!(rt; "{USAGE}")?;
    Err(io::Error::other("two files are wanted"))
}

// Each program matches its own words: this one wants two files, the others take one or none.
fn program(rt: &HostRuntime) -> io::Result<()> {
    // the first word is the program's own name
    let mut words = env::args(rt)?.skip(1);
    match (words.next().as_deref(), words.next().as_deref()) {
        (Some("--help"), _) => print!(rt; "{USAGE}"),
        (Some(model), Some(sheet)) => run(rt, model, sheet),
        _ => misused(rt),
    }
}

fn main(rt: HostRuntime) -> ExitCode {
    console::status(program(&rt))
}
