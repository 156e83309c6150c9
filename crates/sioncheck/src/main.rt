// The program of document 01: reads an input from standard input and prints the one line about it.
#![tactic(auto)]

use std::io::{Error, Result};
use std::process::ExitCode;
use streams::input::INPUT;
use streams::{input, output};

// The line and its end go out in one write.
fn print_line(rt: &HostRuntime, input: &[u8]) -> Result<()> {
    let mut text = line::line(input);
    text.push('\n');
    output::write_text(&mut rt.stdout(), text.as_str().as_bytes())
}

// What failed is said on standard error; that this cannot be written either changes nothing.
fn fail(rt: &HostRuntime, what: &str, why: Error) -> ExitCode {
    let _ = output::fail(rt, what, why);
    ExitCode::FAILURE
}

// Nothing is judged that was not read: a read that fails is said on standard error, and no line is printed.
fn main(rt: HostRuntime) -> ExitCode {
    let mut buf = [0u8; INPUT];
    let count = match input::read_input(&mut rt.stdin(), &mut buf) {
        Ok(count) => count,
        Err(e) => return fail(&rt, "sioncheck: standard input", e),
    };
    match print_line(&rt, &buf[..count]) {
        Ok(()) => ExitCode::SUCCESS,
        Err(e) => fail(&rt, "sioncheck: standard output", e),
    }
}
