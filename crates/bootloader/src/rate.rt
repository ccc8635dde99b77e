// The bit rates of the bus that a host can ask for.
ghost use Rattle.std.specs.Prelude.{◌≡◌};
ghost use Rattle.bootloader.specs.Frames.{rate_of, rate_number};

#[derive(Clone, Copy, PartialEq, Eq, Debug)]
pub enum BitRate {
    Kbit1000,
    Kbit500,
    Kbit250,
    Kbit125,
    Kbit100,
    Kbit50,
}

impl BitRate {
    // The bit rate of a number; none where no rate has it.
    pub fn of(number: u16) -> Option<BitRate>
        ensures { result ≡ rate_of number }
    {
        match number {
            0 => Some(BitRate::Kbit1000),
            1 => Some(BitRate::Kbit500),
            2 => Some(BitRate::Kbit250),
            3 => Some(BitRate::Kbit125),
            4 => Some(BitRate::Kbit100),
            5 => Some(BitRate::Kbit50),
            _ => None,
        }
    }

    // The number by which a host asks for it.
    pub fn number(self) -> u16
        ensures { result ≡ rate_number self }
    {
        match self {
            BitRate::Kbit1000 => 0,
            BitRate::Kbit500 => 1,
            BitRate::Kbit250 => 2,
            BitRate::Kbit125 => 3,
            BitRate::Kbit100 => 4,
            BitRate::Kbit50 => 5,
        }
    }
}
