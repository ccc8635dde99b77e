// What a line of a log says.
ghost use Rattle.std.specs.Prelude.{◌≡◌, IfSome};
ghost use Rattle.script.specs.Words.{words_left};
ghost use Rattle.board.specs.Fault.{read_by, line_by};
ghost use Rattle.board.specs.Line.{is_time, ticks_of, start_of, frame_alone, frame_dumped, said_of, saying_by};

use crate::fault::{Fault, LineError};
use crate::frame::{read_bytes, read_frame};
use crate::happening::Happening;
use crate::plan::{Memory, Plan};
use crate::settings::read_board;
use script::{WordFault, Words, read_number, read_words};
use std::alloc::Global;

// What a word is wanted for, as messages tell it.
const TICKS: &str = "the number of ticks";

const INTERFACE: &str = "the interface";

const FRAME: &str = "the frame";

const SPACE: &str = "the space";

const CONTENTS: &str = "what the memory shows";

// What a line says.
#[derive(Drop)]
pub enum Said {
    Nothing,
    Board(Plan),
    Start { memory: Memory, bytes: Vec<u8> },
    Ticks(usize),
    Frame(Happening),
}

pub fn read_line<'a>(heap: Global, line: &'a [u8]) -> Result<Said, LineError<'a>>
    ensures { IfSome (line_by saying_by result) (λ r. r ≡ said_of line.now) }
{
    let Ok(mut words) = read_words(line) else {
        return Err(LineError::Wrong(Fault::NotText));
    };
    let Some(first) = words.next() else {
        return Ok(Said::Nothing);
    };
    match first {
        "tick" => Ok(Said::Ticks(read_ticks(words)?)),
        "board" => Ok(Said::Board(read_board(words)?)),
        "memory" => read_start(heap, words),
        word if is_time(word) => read_dumped(heap, words),
        word => read_alone(heap, word, words),
    }
}

// Whether a word is a time as candump writes it.
#[tactic(auto, using(crate::proofs::Cutting::bracketed))]
fn is_time(word: &str) -> bool
    ensures { result ≡ is_time word.now }
{
    word.starts_with("(") && word.ends_with(")")
}

fn read_ticks(mut words: Words<'_>) -> Result<usize, Fault<'_>>
    ensures { read_by result ≡ ticks_of (words_left words.entry) }
{
    let ticks = words.number(TICKS)?;
    words.finish()?;
    Ok(ticks)
}

// The contents of a memory at the start.
fn read_start<'a>(heap: Global, mut words: Words<'a>) -> Result<Said, LineError<'a>>
    ensures { IfSome (line_by saying_by result) (λ r. r ≡ start_of (words_left words.entry)) }
{
    let space = words.next().ok_or(WordFault::Missing(SPACE))?;
    let memory = read_number(space)
        .and_then(Memory::of)
        .ok_or(Fault::NoMemory(space))?;
    let contents = words.next().ok_or(WordFault::Missing(CONTENTS))?;
    let bytes = read_bytes(heap, contents)?.ok_or(Fault::NotContents(contents))?;
    words.finish()?;
    Ok(Said::Start { memory, bytes })
}

// A frame behind the name of an interface.
fn read_dumped<'a>(heap: Global, mut words: Words<'a>) -> Result<Said, LineError<'a>>
    ensures { IfSome (line_by saying_by result) (λ r. r ≡ frame_dumped (words_left words.entry)) }
{
    words.next().ok_or(WordFault::Missing(INTERFACE))?;
    let frame = words.next().ok_or(WordFault::Missing(FRAME))?;
    read_alone(heap, frame, words)
}

// A frame, behind which no word stands.
fn read_alone<'a>(heap: Global, frame: &'a str, words: Words<'a>) -> Result<Said, LineError<'a>>
    ensures { IfSome (line_by saying_by result) (λ r. r ≡ frame_alone frame.now (words_left words.entry)) }
{
    let frame = read_frame(heap, frame)?;
    words.finish()?;
    Ok(Said::Frame(frame))
}
