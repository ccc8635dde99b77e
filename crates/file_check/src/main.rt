#![tactic(auto)]

// Tells whether the loader would take a firmware file: see `help.rt`.
mod advice;
mod cause;
mod failure;
mod help;
mod options;
mod rows;
mod words;

use advice::Advice;
use cause::Cause;
use failure::Failure;
use help::HELP;
use loader::{MAX_TEXT, Refusal, check_for};
use options::{Command, Options, STANDARD_INPUT, parse_words};
use rows::{Outcome, printed_rows};
use std::fs::File;
use std::io::{BufWriter, Read, Write};
use std::process::ExitCode;
use std::{env, io};

fn main(rt: HostRuntime) -> ExitCode {
    match given_words(&rt) {
        Ok(words) => match run(&rt, words.as_slice()) {
            Ok(()) => ExitCode::SUCCESS,
            Err(failure) => told(&rt, failure),
        },
        Err(error) => told(&rt, Failure::Words(error)),
    }
}

// The words behind the program's name.
fn given_words(rt: &HostRuntime) -> io::Result<Vec<String>> {
    Ok(env::args(rt)?.skip(1).collect(rt.alloc())?)
}

// Nothing is left to do about a message that cannot be written, and only the exit status is left.
fn told(rt: &HostRuntime, failure: Failure<'_>) -> ExitCode {
    let _ = rt.eprintln(failure);
    ExitCode::FAILURE
}

fn run<'a>(rt: &HostRuntime, words: &'a [String]) -> Result<(), Failure<'a>> {
    match parse_words(words)? {
        Command::Help => Ok(rt.print(HELP)?),
        Command::Check(options) => check_text(rt, options),
    }
}

fn check_text<'a>(rt: &HostRuntime, options: Options<'a>) -> Result<(), Failure<'a>> {
    let Options {
        quiet,
        target,
        file,
        ..
    } = options;
    let text = read_text(rt, file).map_err(|error| Failure::Text(file, error))?;
    let text = text.as_slice();
    let checked = check_for(text, target);
    write_report(rt, text, quiet, checked)?;
    checked.map_err(|refusal| {
        let cause = Cause::of(text, refusal);
        Failure::Refused(Advice {
            file,
            line: refusal.line,
            cause,
        })
    })
}

// A text of more bytes than are taken is cut behind the first byte too many.
fn read_text(rt: &HostRuntime, file: &str) -> io::Result<Vec<u8>> {
    // No `From` takes a usize to a u64.
    let limit = MAX_TEXT as u64 + 1;
    let mut text = Vec::new(rt.alloc());
    if file == STANDARD_INPUT {
        rt.stdin().take(limit).read_to_end(&mut text)?;
    } else {
        File::open(rt, file)?.take(limit).read_to_end(&mut text)?;
    }
    Ok(text)
}

fn write_report(
    rt: &HostRuntime,
    text: &[u8],
    quiet: bool,
    checked: Result<(), Refusal>,
) -> io::Result<()> {
    let mut out = BufWriter::new(rt.alloc(), rt.stdout())?;
    // A `for`, since a turn may fail, and `?` says so plainest.
    for row in printed_rows(rt.alloc(), text, quiet, checked)? {
        writeln!(out, "{row}")?;
    }
    let outcome = Outcome(checked);
    writeln!(out, "{outcome}")?;
    out.flush()
}
