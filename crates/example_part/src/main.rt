#![tactic(auto)]

// A memory part of one's own, and a script from standard input that is carried out on it. docs/PARTS.md
// walks through it.
mod once_flash;
mod pages;
mod trial;

use script::ScriptError;
use std::fmt::Display;
use std::io::{self, Read};
use std::process::ExitCode;
use trial::try_script;

fn main(rt: HostRuntime) -> ExitCode {
    match run(&rt) {
        Ok(code) => code,
        Err(error) => told(&rt, error),
    }
}

fn run(rt: &HostRuntime) -> io::Result<ExitCode> {
    let mut text = Vec::new(rt.alloc());
    rt.stdin().read_to_end(&mut text)?;
    match try_script(rt.alloc(), text.as_slice()) {
        Ok(report) => {
            rt.print(report)?;
            Ok(ExitCode::SUCCESS)
        }
        Err(ScriptError::Refused(refusal)) => Ok(told(rt, refusal)),
        Err(ScriptError::Memory(error)) => Ok(told(rt, error)),
    }
}

// Nothing is left to do about a message that cannot be written, and only the exit status is left.
fn told<D: Display + Drop>(rt: &HostRuntime, reason: D) -> ExitCode {
    let _ = eprintln!(rt; "example_part: {reason}");
    ExitCode::FAILURE
}
