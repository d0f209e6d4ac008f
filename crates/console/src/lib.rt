// What the programs share: input from a file or from standard input, a clear line on standard error
// where it cannot be read, and the status that they end with. Nothing can be promised of what a file
// holds, so the functions that read have no contract beyond being safe and coming to an end.
#![tactic(auto)]

ghost use Rattle.std.specs.Prelude.{◌≡◌, if◌then◌else◌, is_ok, IsErr, OnOk, OnErr};
ghost use Rattle.std.specs.Process.{exit_status};

use std::io::Read;
use std::process::ExitCode;
use std::{fs, io};

// What was read; where it could not be, a line that says so, with the program's name in front.
fn reported(
    rt: &HostRuntime,
    program: &str,
    name: &str,
    bytes: io::Result<Vec<u8>>,
) -> io::Result<Vec<u8>>
    ensures read { OnOk bytes (result ≡ bytes) }
    ensures failed { OnErr bytes (IsErr result) }
{
    if let Err(e) = &bytes {
        eprintln!(rt; "{program}: {name}: cannot be read: {e}")?;
    }
    bytes
}

// All of standard input.
fn standard_input(rt: &HostRuntime) -> io::Result<Vec<u8>> {
    let mut bytes = Vec::new(rt.alloc());
    rt.stdin().read_to_end(&mut bytes)?;
    Ok(bytes)
}

// The bytes of a file.
pub fn read_file(rt: &HostRuntime, program: &str, name: &str) -> io::Result<Vec<u8>> {
    reported(rt, program, name, fs::read(rt, name))
}

// The bytes of the file, or of standard input where none is named.
pub fn read(rt: &HostRuntime, program: &str, file: Option<&str>) -> io::Result<Vec<u8>> {
    match file {
        Some(name) => read_file(rt, program, name),
        None => reported(rt, program, "standard input", standard_input(rt)),
    }
}

// The status that a program ends with: 0, or 1 where its work could not be done. What a user can mend
// (a file that cannot be read, wrong words) has been said on standard error by then; given back from
// `main` the error would be printed once more, by its fields. Not by From,
// which would want a type of our own around one of the library's two.
pub fn status(done: io::Result<()>) -> ExitCode
    ensures { exit_status result ≡ (if is_ok done then 0 else 1) }
{
    match done {
        Ok(()) => ExitCode::SUCCESS,
        Err(_) => ExitCode::FAILURE,
    }
}
