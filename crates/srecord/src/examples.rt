// Worked examples of the definitions, as a contract.
ghost use Rattle.srecord.specs.Examples.{Examples};

// Computes nothing: its contract says that the worked examples are read as they should be.
pub fn examples_hold()
    ensures { Examples }
{}
