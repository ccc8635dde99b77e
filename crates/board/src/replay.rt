// A log, replayed on its board.
ghost use Rattle.std.specs.Prelude.{◌≡◌, ◌++◌, IfOk, string_bytes};
ghost use Rattle.bootloader.specs.BusLog.{event_of, events_of, replies_of};
ghost use Rattle.board.specs.Stage.{meant_by, replayed};
ghost use Rattle.board.specs.Replay.{frame_line, memory_line, ending, state_name, rows};

use crate::draft::Log;
use crate::happening::entries_of;
use crate::plan::Memory;
use crate::stage::{eeprom_for, flash_for};
use bootloader::{Bootloader, Device, Entry, Event, State, replay};
use memory::{ReadablePart, WritablePart, read_all};
use script::Hex;
use std::alloc::{AllocError, Global};

// Builds the board, replays the log on it, and gives the text to print.
pub fn replay_log(heap: Global, log: &Log) -> Result<String, AllocError>
    ensures { IfOk result (λ t. string_bytes t ≡ replayed (meant_by log.now)) }
{
    let flash = flash_for(heap, log)?;
    let boot = eeprom_for(heap, log, Memory::Boot)?;
    let data = eeprom_for(heap, log, Memory::Data)?;
    let mut entries = entries_of(heap, log.happenings.as_slice())?;
    let entries = entries.as_mut_slice();
    let board = replay(log.plan.setup, flash, boot, data, entries);
    report_on(heap, &board, entries)
}

// A line for each frame, and then the state and the memories that are left.
fn report_on<F: WritablePart, B: WritablePart, E: WritablePart>(
    heap: Global,
    board: &Bootloader<F, B, E>,
    entries: &[Entry<'_>],
) -> Result<String, AllocError>
    ensures { IfOk result (λ t. string_bytes t
        ≡ rows (events_of entries.now) (replies_of entries.now) ++ ending (⟦<Bootloader<F, B, E> as Device>⟧.board board.now)) }
{
    let mut report = report_frames(heap, entries)?;
    let state = state_name(board.state());
    writeln!(report, "S\t{state}")?;
    report_memory(heap, &mut report, Memory::Flash, board.flash())?;
    report_memory(heap, &mut report, Memory::Boot, board.boot())?;
    report_memory(heap, &mut report, Memory::Data, board.eeprom())?;
    Ok(report)
}

// A line for each frame, with the reply to it.
fn report_frames(heap: Global, entries: &[Entry<'_>]) -> Result<String, AllocError>
    ensures { IfOk result (λ t. string_bytes t ≡ rows (events_of entries.now) (replies_of entries.now)) }
{
    let mut report = String::new(heap);
    for entry in entries {
        report_entry(&mut report, *entry)?;
    }
    Ok(report)
}

// Adds a line for a frame, and nothing for a tick.
fn report_entry(report: &mut String, entry: Entry<'_>) -> Result<(), AllocError>
    ensures { IfOk result (λ _. string_bytes report.new
        ≡ string_bytes report.old ++ frame_line (event_of entry.entry.event) entry.entry.reply) }
{
    let Event::Frame { bytes, .. } = entry.event else {
        return Ok(());
    };
    let frame = Hex(bytes);
    match entry.reply {
        Some(reply) => {
            let reply = Hex(&reply);
            writeln!(report, "F\t{frame}\t{reply}")?;
        }
        None => writeln!(report, "F\t{frame}\t-")?,
    }
    Ok(())
}

// Adds a line with the whole contents of a memory.
fn report_memory<P: ReadablePart>(
    heap: Global,
    report: &mut String,
    memory: Memory,
    part: &P,
) -> Result<(), AllocError>
    ensures { IfOk result (λ _. string_bytes report.new ≡ string_bytes report.old ++ memory_line memory (P.contents part.now)) }
{
    let space = memory.space();
    let contents = read_all(heap, part)?;
    let contents = Hex(contents.as_slice());
    writeln!(report, "M\t{space}\t{contents}")?;
    Ok(())
}

fn state_name(state: State) -> &'static str
    ensures { result.now ≡ state_name state }
{
    match state {
        State::Waiting { .. } => "Waiting",
        State::Connected => "Connected",
        State::Idle => "Idle",
        State::Running => "Running",
    }
}
