// The spaces of addresses that a host can select.
ghost use Rattle.std.specs.Prelude.{◌≡◌};
ghost use Rattle.bootloader.specs.Frames.{space_of, extension_of, password_of};

// The numbers that unlock the memories.
pub(crate) const FLASH_PASSWORD: u16 = 0x1234;

pub(crate) const BOOT_PASSWORD: u16 = 0xABCD;

pub(crate) const DATA_PASSWORD: u16 = 0x9876;

#[derive(Clone, Copy, PartialEq, Eq, Debug)]
pub enum Space {
    Flash,
    // the password register
    Register,
    // the EEPROM of the bootloader
    Boot,
    // the EEPROM of the application's data
    Data,
}

impl Space {
    // The space of an address extension; none where no space has it.
    pub fn of(extension: u8) -> Option<Space>
        ensures { result ≡ space_of extension }
    {
        match extension {
            0 => Some(Space::Flash),
            1 => Some(Space::Register),
            2 => Some(Space::Boot),
            3 => Some(Space::Data),
            _ => None,
        }
    }

    // The address extension by which a frame tells the space.
    pub fn extension(self) -> u8
        ensures { result ≡ extension_of self }
    {
        match self {
            Space::Flash => 0,
            Space::Register => 1,
            Space::Boot => 2,
            Space::Data => 3,
        }
    }

    // The number that unlocks the memory of the space; the password register is no memory, and has none.
    pub fn password(self) -> Option<u16>
        ensures { result ≡ password_of self }
    {
        match self {
            Space::Flash => Some(FLASH_PASSWORD),
            Space::Register => None,
            Space::Boot => Some(BOOT_PASSWORD),
            Space::Data => Some(DATA_PASSWORD),
        }
    }
}
