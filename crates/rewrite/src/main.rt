// Prints a model anew. The work is the library's: this program reads the text and lends the bytes.
#![tactic(auto)]

use std::io::Write;
use std::process::ExitCode;
use std::{env, io};

const USAGE: &str = "\
usage: rewrite [MODEL]

Prints the model in the file MODEL, or on standard input where no file is named, anew.
It is not there yet: no model can be read.
";

// A text written anew is never longer than the text.
fn print(rt: &HostRuntime, text: &[u8]) -> io::Result<()> {
    let mut printed = vec![in rt.alloc(); 0u8; text.len()]?;
    match solver::rewrite(text, &mut printed) {
        Ok(len) => rt.stdout().write_all(&printed[..len]),
        Err(missing) => eprintln!(rt; "rewrite: {missing}"),
    }
}

fn run(rt: &HostRuntime, model: Option<&str>) -> io::Result<()> {
    let text = console::read(rt, "rewrite", model)?;
    print(rt, &text)
}

// Each program matches its own words: this one takes a file or none, `check` wants two.
fn program(rt: &HostRuntime) -> io::Result<()> {
    // the first word is the program's own name
    match env::args(rt)?.nth(1).as_deref() {
        Some("--help") => print!(rt; "{USAGE}"),
        model => run(rt, model),
    }
}

fn main(rt: HostRuntime) -> ExitCode {
    console::status(program(&rt))
}
