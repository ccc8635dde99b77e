// Worked examples of the definitions, as a contract.
ghost use Rattle.std.specs.Prelude.{◌≡◌};
ghost use Rattle.memory.specs.Examples.{CrcExamples, FlashExamples, LayoutExamples, CallExamples, CrossingExamples, SealExamples};

use crate::eeprom::Eeprom;
use crate::flash::Flash;
use crate::part::ReadablePart;

// Computes nothing: its contract says that the worked examples come out as they should.
pub fn examples_hold()
    ensures crc { CrcExamples }
    ensures flash { FlashExamples }
    ensures layout { LayoutExamples }
    ensures calls { CallExamples }
    ensures widths { (⟦<Flash as ReadablePart>⟧.BYTES_PER_ADDRESS ≡ 2) × (⟦<Eeprom as ReadablePart>⟧.BYTES_PER_ADDRESS ≡ 1) }
    ensures crossing { CrossingExamples }
    ensures seal { SealExamples }
{}
