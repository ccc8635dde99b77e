// A script that is carried out on a blank flash.
ghost use Rattle.std.specs.Prelude.{◌≡◌, IfOk, IfSome, replicate};
ghost use Rattle.script.specs.Text.{script_of};
ghost use Rattle.example_part.specs.Trial.{trial_shape, tried, tried_by};

use crate::once_flash::OnceFlash;
use memory::{ReadablePart, WritablePart};
use script::{ScriptError, play, read_script};
use std::alloc::{AllocError, Global};

const PAGES: usize = 2;

// How many words a page has.
const WORDS: usize = 4;

// Carries out the actions of a script on a blank flash, whichever part its first line names, and gives
// what is to be printed of it.
pub fn try_script(heap: Global, text: &[u8]) -> Result<String, ScriptError<'_>>
    ensures { IfSome (tried_by result) (λ r. r ≡ tried (script_of text.now)) }
{
    let script = read_script(heap, text)?;
    let mut flash = blank_flash(heap)?;
    Ok(play(heap, &mut flash, script.actions.as_slice())?)
}

fn blank_flash(heap: Global) -> Result<OnceFlash, AllocError>
    ensures contents { IfOk result (λ f. ⟦<OnceFlash as ReadablePart>⟧.contents f ≡ replicate 16 255) }
    ensures shape { IfOk result (λ f. ⟦<OnceFlash as WritablePart>⟧.shape f ≡ trial_shape) }
{
    let blank = vec![in heap; 0xFF; PAGES * WORDS * 2]?;
    Ok(OnceFlash::new(blank, PAGES, WORDS))
}
