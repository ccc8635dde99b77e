// The part that a script is for, and the script played on it.
ghost use Rattle.std.specs.Prelude.{◌≡◌, IfOk, min, replicate, string_bytes, vec_len};
ghost use Rattle.part.specs.Stage.{crossed_if, played_of};
ghost use Rattle.script.specs.Report.{report_of};

use memory::{Action, Crossing, Eeprom, Flash, MAX_LENGTH, WritablePart};
use script::{PartKind, Setup, play};
use std::alloc::{AllocError, Global};

// Builds the part, plays the actions on it, and gives the text to print.
pub fn play_setup(heap: Global, setup: Setup, actions: &[Action]) -> Result<String, AllocError>
    ensures { IfOk result (λ t. string_bytes t ≡ played_of setup actions.now) }
{
    match setup.kind {
        PartKind::Flash {
            sectors,
            words,
            buffer,
        } => {
            let flash = Flash::new(blank_buffer(heap, buffer)?, sectors, words);
            play_over(heap, flash, setup.crossed, actions)
        }
        PartKind::Eeprom { buffer } => {
            let eeprom = Eeprom::new(blank_buffer(heap, buffer)?);
            play_over(heap, eeprom, setup.crossed, actions)
        }
    }
}

// Plays the actions on a part, or on a lane crossing over it.
fn play_over<P: WritablePart + Drop>(
    heap: Global,
    mut part: P,
    crossed: bool,
    actions: &[Action],
) -> Result<String, AllocError>
    ensures { let m = crossed_if crossed (record { contents = P.contents part; shape = P.shape part })
        in IfOk result (λ t. string_bytes t ≡ report_of P.BYTES_PER_ADDRESS m.shape m.contents actions.now) }
{
    if crossed {
        play(heap, &mut Crossing::new(part), actions)
    } else {
        play(heap, &mut part, actions)
    }
}

// A buffer of so many bytes 0xFF, or of as many as a part has use for.
fn blank_buffer(heap: Global, bytes: usize) -> Result<Vec<u8>, AllocError>
    ensures items { IfOk result (λ v. v.items ≡ replicate (min bytes 1048576) 255) }
    ensures len { IfOk result (λ v. vec_len v ≡ min bytes 1048576) }
{
    vec![in heap; 0xFF; bytes.min(MAX_LENGTH)]
}
