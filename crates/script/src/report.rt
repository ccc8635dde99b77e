// What is printed of a script that is carried out on a part.
ghost use Rattle.std.specs.Prelude.{◌≡◌, ◌⊎◌, Some, IfOk, MatchResult, string_bytes};
ghost use Rattle.script.specs.Report.{reply_text, report_of, left_by};

use crate::hex::Hex;
use memory::{Action, Answer, PartRefusal, WritablePart, exercise, read_all, seal};
use std::alloc::{AllocError, Global};
use std::fmt;

// The answer to an action, as it is printed.
#[derive(Clone, Copy)]
pub struct Reply(pub Result<Answer, PartRefusal>);

impl fmt::Display for Reply {
    ghost output = { λ r. Some (reply_text r.0) };

    #[tactic(auto, using(crate::proofs::Glyphs::hex_byte_shown))]
    fn fmt<W: fmt::Write>(&self, f: &mut fmt::Formatter<W>) -> fmt::Result {
        match self.0 {
            Ok(Answer::Byte(byte)) => write!(f, "{byte:02X}"),
            Ok(Answer::Taken(true)) => f.write_str("yes"),
            Ok(Answer::Taken(false)) => f.write_str("no"),
            Ok(Answer::Done) => f.write_str("ok"),
            Err(refusal) => {
                let number = refusal.number();
                write!(f, "refused {number}")
            }
        }
    }
}

// Carries out actions on a part, and gives a line for each answer, and then one with the contents that
// are left and one with their seal. For want of memory either all is carried out or nothing.
pub fn play<P: WritablePart>(
    heap: Global,
    part: &mut P,
    actions: &[Action],
) -> Result<String, AllocError>
    ensures text { IfOk result (λ t. string_bytes t
        ≡ report_of P.BYTES_PER_ADDRESS (P.shape part.old) (P.contents part.old) actions.now) }
    ensures after { MatchResult result
        (λ _. P.contents part.new ≡ left_by (P.shape part.old) (P.contents part.old) actions.now)
        (λ _. (P.contents part.new ≡ left_by (P.shape part.old) (P.contents part.old) actions.now)
        ⊎ (P.contents part.new ≡ P.contents part.old)) }
    ensures same { P.shape part.new ≡ P.shape part.old }
{
    let answers = exercise(heap, part, actions)?;
    let mut report = String::new(heap);
    for answer in answers.iter() {
        let reply = Reply(*answer);
        writeln!(report, "{reply}")?;
    }
    let contents = read_all(heap, part)?;
    let contents = Hex(contents.as_slice());
    let bytes = seal(part).to_be_bytes();
    let sealed = Hex(&bytes);
    writeln!(report, "M\t{contents}\nC\t{sealed}")?;
    Ok(report)
}
