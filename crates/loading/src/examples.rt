// Boards that meet what the promises of a load ask for.
ghost use Rattle.loading.specs.Examples.{LoadExamples};

// States that the bench board and a board with odd rules can be loaded; it does nothing.
#[tactic(auto, using(crate::proofs::Worked::examples))]
pub fn examples_hold()
    ensures { LoadExamples }
{}
