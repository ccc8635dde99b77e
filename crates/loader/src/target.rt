// What a file is loaded into.
ghost use Rattle.std.specs.Prelude.{◌≡◌};
ghost use Rattle.loader.specs.Target.{number_of, size_of, target_of, bytes_per_address};

// The largest EEPROM, in bytes.
const MAX_SIZE: u64 = 1_048_576;

// The flash, or the EEPROM of the bootloader or of the data with its size in bytes.
#[derive(Clone, Copy, PartialEq, Eq, Debug)]
pub enum Target {
    Flash,
    Boot { size: u64 },
    Data { size: u64 },
}

impl Target {
    // The target of a number, the EEPROMs of the size told; none where no target has the number.
    pub fn of(number: u8, size: u64) -> Option<Target>
        ensures { result ≡ target_of number size }
    {
        match number {
            0 => Some(Target::Flash),
            2 => Some(Target::Boot { size }),
            3 => Some(Target::Data { size }),
            _ => None,
        }
    }

    // How many bytes an address stands for; none where the size is not that of an EEPROM.
    pub fn bytes_per_address(self) -> Option<usize>
        ensures { result ≡ bytes_per_address (number_of self) (size_of self) }
    {
        match self {
            Target::Flash => Some(2),
            Target::Boot { size } | Target::Data { size } => {
                (1..=MAX_SIZE).contains(&size).then_some(1)
            }
        }
    }
}
