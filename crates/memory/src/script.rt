// Actions on a part, one after the other, and their answers.
ghost use Rattle.std.specs.Prelude.{◌≡◌, IfOk, MatchResult};
ghost use Rattle.memory.specs.Changes.{changed_all, ByLast};
ghost use Rattle.memory.specs.Script.{answer_of, after_action, answers_of, made_by_all};

use crate::part::WritablePart;
use crate::refusal::PartRefusal;
use std::alloc::{AllocError, Global};

#[derive(Clone, Copy, PartialEq, Eq, Debug)]
pub enum Action {
    Read { offset: usize },
    Question { offset: usize, value: u8 },
    Put { offset: usize, value: u8 },
    Clear { unit: usize },
}

#[derive(Clone, Copy, PartialEq, Eq, Debug)]
pub enum Answer {
    // what was read
    Byte(u8),
    // whether the value in question would be taken
    Taken(bool),
    // a put or a clear was done
    Done,
}

// Carries out actions on a part, in their order, and hands out the answer to each. For want of memory
// nothing is carried out.
#[tactic(auto, using(crate::proofs::Scripts::scripts), unfolding(crate::specs::Script::answers_of))]
pub fn exercise<P: WritablePart>(
    heap: Global,
    part: &mut P,
    actions: &[Action],
) -> Result<Vec<Result<Answer, PartRefusal>>, AllocError>
    ensures answer { IfOk result
        (λ v. v.items ≡ answers_of (P.shape part.old) (P.contents part.old) actions.now) }
    ensures after { MatchResult result
        (λ v. P.contents part.new
        ≡ changed_all (P.shape part.old) (made_by_all actions.now v.items) (P.contents part.old))
        (λ _. P.contents part.new ≡ P.contents part.old) }
    ensures law { IfOk result
        (λ v. ByLast (P.shape part.old) (made_by_all actions.now v.items)
        (P.contents part.old) (P.contents part.new)) }
    ensures same { P.shape part.new ≡ P.shape part.old }
{
    // Not a `collect`: the room is taken first, so that for want of it nothing is carried out.
    let mut answers = Vec::with_capacity(heap, actions.len())?;
    for action in actions {
        answers.push_reserved(perform(part, *action));
    }
    Ok(answers)
}

// Carries out one action.
pub fn perform<P: WritablePart>(part: &mut P, action: Action) -> Result<Answer, PartRefusal>
    ensures answer { result ≡ answer_of (P.shape part.old) (P.contents part.old) action }
    ensures after { P.contents part.new ≡ after_action (P.shape part.old) (P.contents part.old) action }
    ensures same { P.shape part.new ≡ P.shape part.old }
{
    match action {
        Action::Read { offset } => part.read(offset).map(Answer::Byte),
        Action::Question { offset, value } => part.question(offset, value).map(Answer::Taken),
        Action::Put { offset, value } => part.put(offset, value).map(|()| Answer::Done),
        Action::Clear { unit } => part.clear(unit).map(|()| Answer::Done),
    }
}
