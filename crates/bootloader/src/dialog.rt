// The dialog with a host: what Connect sets back, and the commands that work on it.
ghost use Rattle.std.specs.Prelude.{◌≡◌, ◌+◌, ◌/◌, ◌%◌, ◌^◌, ◌≤◌, Ok};
ghost use Rattle.memory.specs.Crc.{crc_from};
ghost use Rattle.bootloader.specs.Memories.{memory_of};
ghost use Rattle.bootloader.specs.Dialog.{fresh_dialog, mta_effect, unlock_effect, download_effect, clear_effect, record_effect, unlocked_for, is_unlocked, opened, address_behind, space_and_crc, payload_of, dialog_after, contents_after};

use crate::programming::{clear_units, is_mask, offset_of, put_whole};
use crate::refusal::Refusal;
use crate::space::{BOOT_PASSWORD, DATA_PASSWORD, FLASH_PASSWORD, Space};
use arrayvec::ArrayVec;
use memory::{CRC_START, ReadablePart, WritablePart, crc_over};

// The most bytes of a record.
pub const MAX_RECORD: usize = 252;

// The five bytes of a reply behind its counter.
pub type Payload = [u8; 5];

// Which memories a host has unlocked.
#[derive(Clone, Copy, PartialEq, Eq, Debug)]
pub struct Unlocked {
    pub flash: bool,
    pub boot: bool,
    pub data: bool,
}

impl Unlocked {
    // Whether the memory of a space is unlocked; the password register is no memory.
    fn covers(self, space: Space) -> bool
        ensures { result ≡ is_unlocked self space }
    {
        match space {
            Space::Flash => self.flash,
            Space::Register => false,
            Space::Boot => self.boot,
            Space::Data => self.data,
        }
    }

    // The locks with the one open that has the password; none where no lock has it.
    fn opened(self, password: u16) -> Option<Unlocked>
        ensures { result ≡ opened self password }
    {
        match password {
            FLASH_PASSWORD => Some(Unlocked {
                flash: true,
                ..self
            }),
            BOOT_PASSWORD => Some(Unlocked { boot: true, ..self }),
            DATA_PASSWORD => Some(Unlocked { data: true, ..self }),
            _ => None,
        }
    }
}

// The space and the address that are selected, the record that is gathered for them, the locks, and the CRC over the records so
// far.
#[derive(Drop)]
pub struct Dialog {
    pub space: Space,
    pub address: u32,
    pub bytes: ArrayVec<u8, MAX_RECORD>,
    pub unlocked: Unlocked,
    pub image_crc: u16,
}

impl Dialog {
    // As each Connect finds it.
    pub fn new() -> Dialog
        ensures { result ≡ fresh_dialog }
    {
        Dialog {
            space: Space::Flash,
            address: 0,
            bytes: ArrayVec::new(),
            unlocked: Unlocked {
                flash: false,
                boot: false,
                data: false,
            },
            image_crc: CRC_START,
        }
    }

    // Selects an address of a space.
    pub(crate) fn set_mta(
        &mut self,
        number: u8,
        extension: u8,
        address: u32,
    ) -> Result<Payload, Refusal>
        ensures answer { result ≡ payload_of (mta_effect self.old number extension address) }
        ensures after { self.new ≡ dialog_after self.old (mta_effect self.old number extension address) }
    {
        if number != 0 {
            return Err(Refusal::OutOfRange);
        }
        self.space = Space::of(extension).ok_or(Refusal::OutOfRange)?;
        self.address = address;
        self.bytes.clear();
        Ok([0; 5])
    }

    // Opens the lock that has a password.
    pub(crate) fn unlock(&mut self, size: u8, password: u16) -> Result<Payload, Refusal>
        ensures answer { result ≡ payload_of (unlock_effect self.old size password) }
        ensures after { self.new ≡ dialog_after self.old (unlock_effect self.old size password) }
    {
        if size != 2 {
            return Err(Refusal::Syntax);
        }
        if self.space != Space::Register || self.address != 0 {
            return Err(Refusal::Denied);
        }
        self.unlocked = self.unlocked.opened(password).ok_or(Refusal::Locked)?;
        Ok([Space::Register.extension(), 0, 0, 0, 2])
    }

    // Whether the selected memory may be changed.
    pub(crate) fn check_access(&self) -> Result<(), Refusal>
        ensures { result ≡ unlocked_for self.now (Ok tt) }
    {
        if self.space == Space::Register {
            Err(Refusal::Unavailable)
        } else if self.unlocked.covers(self.space) {
            Ok(())
        } else {
            Err(Refusal::Locked)
        }
    }

    // The address behind so many bytes from the selected one on, rounded down.
    fn address_behind<P: ReadablePart>(&self, len: usize) -> u32
        requires { len ≤ 252 }
        ensures { result ≡ (self.now.address + len / P.BYTES_PER_ADDRESS) % 2 ^ 32 }
    {
        self.address
            .wrapping_add((len / P::BYTES_PER_ADDRESS) as u32)
    }

    // Adds bytes to the record, which then lies in the part and has no more bytes than a record can have.
    pub(crate) fn download<P: WritablePart>(
        &mut self,
        part: &P,
        base: u32,
        more: &[u8],
    ) -> Result<Payload, Refusal>
        ensures answer { let m = memory_of base P.BYTES_PER_ADDRESS (P.shape part.now) (P.contents part.now)
            in result ≡ payload_of (download_effect self.old m more.now) }
        ensures after { let m = memory_of base P.BYTES_PER_ADDRESS (P.shape part.now) (P.contents part.now)
            in self.new ≡ dialog_after self.old (download_effect self.old m more.now) }
    {
        self.check_access()?;
        let len = self.bytes.len().saturating_add(more.len());
        offset_of(part, base, self.address, len).ok_or(Refusal::OutOfRange)?;
        self.bytes
            .try_extend_from_slice(more)
            .map_err(|_| Refusal::OutOfRange)?;
        let [a, b, c, d] = self.address_behind::<P>(len).to_be_bytes();
        Ok([self.space.extension(), a, b, c, d])
    }

    // Clears the units that a mask names, or every unit.
    #[tactic(auto, using(crate::specs::Places::places))]
    pub(crate) fn clear<P: WritablePart>(
        &mut self,
        part: &mut P,
        mask: Option<u32>,
    ) -> Result<Payload, Refusal>
        ensures answer { let m = memory_of 0 P.BYTES_PER_ADDRESS (P.shape part.old) (P.contents part.old)
            in result ≡ payload_of (clear_effect self.old m mask) }
        ensures after { let m = memory_of 0 P.BYTES_PER_ADDRESS (P.shape part.old) (P.contents part.old)
            in self.new ≡ dialog_after self.old (clear_effect self.old m mask) }
        ensures part { let m = memory_of 0 P.BYTES_PER_ADDRESS (P.shape part.old) (P.contents part.old)
            in P.contents part.new ≡ contents_after self.old.space m (clear_effect self.old m mask) }
        ensures same { P.shape part.new ≡ P.shape part.old }
    {
        self.check_access()?;
        if !is_mask(mask, part.units()) {
            return Err(Refusal::OutOfRange);
        }
        clear_units(part, mask);
        self.bytes.clear();
        self.image_crc = CRC_START;
        Ok([0; 5])
    }

    // Puts the record, if it has the CRC that is told.
    #[tactic(auto, using(crate::specs::Places::places))]
    pub(crate) fn program<P: WritablePart>(
        &mut self,
        part: &mut P,
        base: u32,
        crc: u16,
    ) -> Result<Payload, Refusal>
        ensures answer { let m = memory_of base P.BYTES_PER_ADDRESS (P.shape part.old) (P.contents part.old)
            in result ≡ payload_of (record_effect self.old m crc) }
        ensures after { let m = memory_of base P.BYTES_PER_ADDRESS (P.shape part.old) (P.contents part.old)
            in self.new ≡ dialog_after self.old (record_effect self.old m crc) }
        ensures part { let m = memory_of base P.BYTES_PER_ADDRESS (P.shape part.old) (P.contents part.old)
            in P.contents part.new ≡ contents_after self.old.space m (record_effect self.old m crc) }
        ensures same { P.shape part.new ≡ P.shape part.old }
    {
        self.check_access()?;
        let bytes = self.bytes.as_slice();
        if bytes.is_empty() {
            return Err(Refusal::Syntax);
        }
        if bytes.len() % P::BYTES_PER_ADDRESS != 0 {
            return Err(Refusal::OutOfRange);
        }
        let own = crc_over(CRC_START, bytes);
        if own != crc {
            return Err(Refusal::Failed);
        }
        let offset = offset_of(part, base, self.address, bytes.len()).ok_or(Refusal::Unavailable)?;
        put_whole(part, offset, bytes)?;
        let len = bytes.len();
        self.image_crc = crc_over(self.image_crc, bytes);
        self.address = self.address_behind::<P>(len);
        self.bytes.clear();
        let [high, low] = own.to_be_bytes();
        Ok([self.space.extension(), high, low, 0, 0])
    }
}
