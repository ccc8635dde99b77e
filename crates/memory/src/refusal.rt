// Why a part refuses a call.
ghost use Rattle.std.specs.Prelude.{◌≡◌};
ghost use Rattle.memory.specs.Calls.{refusal_number};

#[derive(Clone, Copy, PartialEq, Eq, Debug)]
pub enum PartRefusal {
    // the offset is not below the length
    Outside,
    // the value is not taken over the byte that is there
    NotTaken,
    // the unit is not below the number of units
    NoSuchUnit,
}

impl PartRefusal {
    // The number by which the refusal is known; a `u8::from` would not say which number it gives, and `as` can't
    // serve the other refusals.
    pub fn number(self) -> u8
        ensures { result ≡ refusal_number self }
    {
        match self {
            PartRefusal::Outside => 1,
            PartRefusal::NotTaken => 2,
            PartRefusal::NoSuchUnit => 3,
        }
    }
}
