#![tactic(auto)]

// Loads a file into the bench board, from standard input: see `help.rt`.
mod advice;
mod bench;
mod cause;
mod failure;
mod help;
mod options;
mod output;
#[cfg(test)]
mod tests;
mod text;

use failure::Failure;
use help::HELP;
use options::{Command, parse_words};
use std::io::Read;
use std::process::ExitCode;
use std::{env, io};
use text::{MAX_TEXT, load_text};

fn main(rt: HostRuntime) -> ExitCode {
    match given_words(&rt) {
        Ok(words) => run(&rt, words.as_slice()),
        Err(error) => told(&rt, Failure::Words(error)),
    }
}

// The words behind the program's name.
fn given_words(rt: &HostRuntime) -> io::Result<Vec<String>> {
    Ok(env::args(rt)?.skip(1).collect(rt.alloc())?)
}

fn run(rt: &HostRuntime, words: &[String]) -> ExitCode {
    match parse_words(words) {
        Ok(Command::Help) => ended(rt, print_text(rt, HELP)),
        Ok(Command::Load) => match read_input(rt) {
            Ok(text) => ended(rt, answer_text(rt, text.as_slice())),
            Err(error) => told(rt, Failure::Input(error)),
        },
        Err(unknown) => told(rt, Failure::Misused(unknown)),
    }
}

// A file of more bytes than are taken is cut behind the first byte too many.
fn read_input(rt: &HostRuntime) -> io::Result<Vec<u8>> {
    // No `From` takes a usize to a u64.
    let limit = MAX_TEXT as u64 + 1;
    let mut text = Vec::new(rt.alloc());
    rt.stdin().take(limit).read_to_end(&mut text)?;
    Ok(text)
}

// The output is printed also where the file was not loaded.
fn answer_text<'a>(rt: &HostRuntime, text: &[u8]) -> Result<(), Failure<'a>> {
    let loaded = load_text(rt.alloc(), text)?;
    print_text(rt, loaded.output.as_str())?;
    match loaded.cause {
        Some(cause) => Err(Failure::NotLoaded(cause)),
        None => Ok(()),
    }
}

fn print_text<'a>(rt: &HostRuntime, text: &str) -> Result<(), Failure<'a>> {
    Ok(rt.print(text)?)
}

fn ended(rt: &HostRuntime, done: Result<(), Failure<'_>>) -> ExitCode {
    match done {
        Ok(()) => ExitCode::SUCCESS,
        Err(failure) => told(rt, failure),
    }
}

// Nothing is left to do about a message that cannot be written, and only the exit status is left.
fn told(rt: &HostRuntime, failure: Failure<'_>) -> ExitCode {
    let _ = rt.eprintln(failure);
    ExitCode::FAILURE
}
