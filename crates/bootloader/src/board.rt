// The bootloader over three memory parts.
ghost use Rattle.std.specs.Prelude.{◌≡◌, [], length, is_some, unwrap_or, Some, Ok, Err};
ghost use Rattle.bootloader.specs.declared.command.Command.TheVariants.{Clear, Download, DownloadSix, BuildChecksum, Disconnect, Connect};
ghost use Rattle.bootloader.specs.Frames.{command_of};
ghost use Rattle.bootloader.specs.Memories.{memory_of, done_by};
ghost use Rattle.bootloader.specs.Dialog.{payload_of, download_effect};
ghost use Rattle.bootloader.specs.Laws.{FreshAfterConnect};
ghost use Rattle.bootloader.specs.Board.{fresh_board, launched, identity, effect_of, judged, board_after, image_effect, seal_for, sealed_by, record_at, answered};

use crate::command::Command;
use crate::device::Device;
use crate::dialog::{Dialog, Payload};
use crate::programming::store_seal;
use crate::rate::BitRate;
use crate::refusal::{Refusal, reply_with};
use crate::session::{Exchange, Session, Setup};
use crate::space::Space;
use crate::state::State;
use memory::{WritablePart, seal_is_valid};

// The identifier of the frames that a host sends.
pub const FRAME_ID: u32 = 0x0B08_1880;

// The code of the command that has no reply.
const ACTION_SERVICE: u8 = 0x21;

// It owns its parts: only frames and ticks change them.
#[derive(Drop)]
pub struct Bootloader<F, B, E> {
    setup: Setup,
    session: Session,
    flash: F,
    boot: B,
    eeprom: E,
}

impl<F: WritablePart, B: WritablePart, E: WritablePart> Bootloader<F, B, E> {
    // A board that nothing has reached yet, over these parts.
    pub fn new(setup: Setup, flash: F, boot: B, eeprom: E) -> Self
        ensures answer { ⟦<Self as Device>⟧.board result ≡ fresh_board setup
            (memory_of setup.base F.BYTES_PER_ADDRESS (F.shape flash) (F.contents flash))
            (memory_of 0 B.BYTES_PER_ADDRESS (B.shape boot) (B.contents boot))
            (memory_of 0 E.BYTES_PER_ADDRESS (E.shape eeprom) (E.contents eeprom)) }
        ensures law { FreshAfterConnect (⟦<Self as Device>⟧.board result) }
    {
        Bootloader {
            setup,
            session: Session::new(setup),
            flash,
            boot,
            eeprom,
        }
    }

    pub fn state(&self) -> State
        ensures { result ≡ (⟦<Self as Device>⟧.board self.now).session.state }
    {
        self.session.state
    }

    // The bit rate that a host asked for last.
    pub fn rate(&self) -> BitRate
        ensures { result ≡ (⟦<Self as Device>⟧.board self.now).session.rate }
    {
        self.session.rate
    }

    pub fn flash(&self) -> &F
        ensures { result.now ≡ self.now.flash }
    {
        &self.flash
    }

    // The EEPROM of the bootloader.
    pub fn boot(&self) -> &B
        ensures { result.now ≡ self.now.boot }
    {
        &self.boot
    }

    // The EEPROM of the application's data.
    pub fn eeprom(&self) -> &E
        ensures { result.now ≡ self.now.eeprom }
    {
        &self.eeprom
    }

    // The state that is gone to without a host: the application is started where the flash is sealed.
    fn launched(&self) -> State
        ensures { result ≡ launched (⟦<Self as Device>⟧.board self.now) }
    {
        if seal_is_valid(&self.flash, &self.boot) {
            State::Running
        } else {
            State::Idle
        }
    }

    // Answers a frame: one that is repeated gets the stored reply, and any other is carried out and stored.
    fn answer(&mut self, frame: &[u8; 8]) -> [u8; 8]
        ensures answer { Some result ≡ (answered (⟦<Self as Device>⟧.board self.old) frame.now).reply }
        ensures after { ⟦<Self as Device>⟧.board self.new ≡ (answered (⟦<Self as Device>⟧.board self.old) frame.now).board }
    {
        if let Some(reply) = self.session.stored_reply(frame) {
            return reply;
        }
        let outcome = self.carry_out(Command::of(frame));
        let reply = reply_with(frame[1], outcome);
        self.session.stored = Some(Exchange {
            frame: *frame,
            reply,
        });
        reply
    }

    // Carries out a command, where it is allowed.
    fn carry_out(&mut self, command: Option<Command>) -> Result<Payload, Refusal>
        ensures answer { result ≡ payload_of (judged (⟦<Self as Device>⟧.board self.old) command) }
        ensures after { let b = ⟦<Self as Device>⟧.board self.old
            in ⟦<Self as Device>⟧.board self.new ≡ board_after b command (judged b command) }
    {
        let command = command.ok_or(Refusal::Unknown)?;
        match (self.session.state, command) {
            (_, Command::Connect) => Ok(self.connect()),
            (
                State::Connected,
                Command::SetMta {
                    number,
                    extension,
                    address,
                },
            ) => self.session.dialog.set_mta(number, extension, address),
            (State::Connected, Command::Unlock { size, password }) => {
                self.session.dialog.unlock(size, password)
            }
            (State::Connected, Command::Clear { mask }) => self.clear(mask),
            (State::Connected, Command::Download { size, bytes }) => {
                self.download_some(size, &bytes)
            }
            (State::Connected, Command::DownloadSix { bytes }) => self.download(&bytes),
            (State::Connected, Command::BuildChecksum { size: 0, crc }) => self.check_image(crc),
            (State::Connected, Command::BuildChecksum { crc, .. }) => self.program(crc),
            (State::Connected, Command::Disconnect { kind }) => self.disconnect(kind),
            (State::Waiting { .. } | State::Idle | State::Running, _) => Err(Refusal::Denied),
        }
    }

    // Adds so many of five bytes to the record for the selected memory.
    fn download_some(&mut self, size: u8, bytes: &[u8; 5]) -> Result<Payload, Refusal>
        ensures answer { result ≡ payload_of (effect_of (⟦<Self as Device>⟧.board self.old) (Download size bytes.now)) }
        ensures after { let b = ⟦<Self as Device>⟧.board self.old
            in ⟦<Self as Device>⟧.board self.new ≡ board_after b (Some (Download size bytes.now)) (effect_of b (Download size bytes.now)) }
    {
        if size == 0 {
            return Err(Refusal::Syntax);
        }
        let bytes = bytes.get(..usize::from(size)).ok_or(Refusal::Syntax)?;
        self.download(bytes)
    }

    // Begins the dialog anew.
    #[tactic(auto, using(crate::specs::Places::unchanged))]
    fn connect(&mut self) -> Payload
        ensures answer { result ≡ identity (⟦<Self as Device>⟧.board self.old).setup }
        ensures after { let b = ⟦<Self as Device>⟧.board self.old
            in ⟦<Self as Device>⟧.board self.new ≡ board_after b (Some Connect) (effect_of b Connect) }
    {
        self.session.state = State::Connected;
        self.session.dialog = Dialog::new();
        let Setup {
            part_id,
            major,
            minor,
            ..
        } = self.setup;
        let [high, low] = part_id.to_be_bytes();
        [major, minor, high, low, 0]
    }

    // Clears units of the selected memory.
    fn clear(&mut self, mask: u32) -> Result<Payload, Refusal>
        ensures answer { result ≡ payload_of (effect_of (⟦<Self as Device>⟧.board self.old) (Clear mask)) }
        ensures after { let b = ⟦<Self as Device>⟧.board self.old
            in ⟦<Self as Device>⟧.board self.new ≡ board_after b (Some (Clear mask)) (effect_of b (Clear mask)) }
    {
        let dialog = &mut self.session.dialog;
        match dialog.space {
            Space::Flash => dialog.clear(&mut self.flash, Some(mask)),
            Space::Register => Err(Refusal::Unavailable),
            Space::Boot => dialog.clear(&mut self.boot, None),
            Space::Data => dialog.clear(&mut self.eeprom, None),
        }
    }

    // Adds bytes to the record for the selected memory.
    fn download(&mut self, bytes: &[u8]) -> Result<Payload, Refusal>
        ensures answer { result ≡ payload_of (effect_of (⟦<Self as Device>⟧.board self.old) (DownloadSix bytes.now)) }
        ensures after { let b = ⟦<Self as Device>⟧.board self.old
            in ⟦<Self as Device>⟧.board self.new ≡ board_after b (Some (DownloadSix bytes.now)) (effect_of b (DownloadSix bytes.now)) }
    {
        let dialog = &mut self.session.dialog;
        match dialog.space {
            Space::Flash => dialog.download(&self.flash, self.setup.base, bytes),
            Space::Register => Err(Refusal::Unavailable),
            Space::Boot => dialog.download(&self.boot, 0, bytes),
            Space::Data => dialog.download(&self.eeprom, 0, bytes),
        }
    }

    // Puts the record into the selected memory.
    fn program(&mut self, crc: u16) -> Result<Payload, Refusal>
        ensures answer { result ≡ payload_of (record_at (⟦<Self as Device>⟧.board self.old) crc) }
        ensures after { let b = ⟦<Self as Device>⟧.board self.old
            in ⟦<Self as Device>⟧.board self.new ≡ board_after b (Some (BuildChecksum 1 crc)) (record_at b crc) }
    {
        let dialog = &mut self.session.dialog;
        match dialog.space {
            Space::Flash => dialog.program(&mut self.flash, self.setup.base, crc),
            Space::Register => Err(Refusal::Unavailable),
            Space::Boot => dialog.program(&mut self.boot, 0, crc),
            Space::Data => dialog.program(&mut self.eeprom, 0, crc),
        }
    }

    // Compares the CRC over the records, and seals an image of the flash.
    fn check_image(&mut self, crc: u16) -> Result<Payload, Refusal>
        ensures answer { result ≡ payload_of (image_effect (⟦<Self as Device>⟧.board self.old) crc) }
        ensures after { let b = ⟦<Self as Device>⟧.board self.old
            in ⟦<Self as Device>⟧.board self.new ≡ board_after b (Some (BuildChecksum 0 crc)) (image_effect b crc) }
    {
        let dialog = &self.session.dialog;
        dialog.check_access()?;
        if !dialog.bytes.is_empty() {
            return Err(Refusal::Syntax);
        }
        if dialog.image_crc != crc {
            return Err(Refusal::Failed);
        }
        let extension = dialog.space.extension();
        self.seal_image()?;
        let [high, low] = crc.to_be_bytes();
        Ok([extension, high, low, 0, 0])
    }

    // Seals an image of the flash; one of an EEPROM has no seal.
    #[tactic(auto, using(crate::specs::Places::none_made))]
    fn seal_image(&mut self) -> Result<(), Refusal>
        ensures answer { let b = ⟦<Self as Device>⟧.board self.old
            in result ≡ done_by (seal_for b b.session.dialog.space) }
        ensures after { let b = ⟦<Self as Device>⟧.board self.old
            in ⟦<Self as Device>⟧.board self.new ≡ sealed_by b (seal_for b b.session.dialog.space) }
    {
        match self.session.dialog.space {
            Space::Flash => store_seal(&self.flash, &mut self.boot),
            Space::Register | Space::Boot | Space::Data => Ok(()),
        }
    }

    // Ends the dialog.
    #[tactic(auto, using(crate::specs::Places::unchanged))]
    fn disconnect(&mut self, kind: u8) -> Result<Payload, Refusal>
        ensures answer { result ≡ payload_of (effect_of (⟦<Self as Device>⟧.board self.old) (Disconnect kind)) }
        ensures after { let b = ⟦<Self as Device>⟧.board self.old
            in ⟦<Self as Device>⟧.board self.new ≡ board_after b (Some (Disconnect kind)) (effect_of b (Disconnect kind)) }
    {
        if kind != 1 {
            return Err(Refusal::OutOfRange);
        }
        self.session.state = self.launched();
        Ok([0; 5])
    }
}

impl<F: WritablePart, B: WritablePart, E: WritablePart> Device for Bootloader<F, B, E> {
    ghost board = { λ x. record {
      setup = x.setup;
      session = x.session;
      flash = memory_of x.setup.base F.BYTES_PER_ADDRESS (F.shape x.flash) (F.contents x.flash);
      boot = memory_of 0 B.BYTES_PER_ADDRESS (B.shape x.boot) (B.contents x.boot);
      eeprom = memory_of 0 E.BYTES_PER_ADDRESS (E.shape x.eeprom) (E.contents x.eeprom);
    } };

    #[tactic(auto, using(crate::proofs::Turns::frame_laws))]
    fn frame(&mut self, id: u32, bytes: &[u8], reply: &mut [u8]) -> bool {
        if reply.len() != 8 || id != FRAME_ID || self.session.state == State::Running {
            return false;
        }
        let Ok(frame) = <[u8; 8]>::try_from(bytes) else {
            return false;
        };
        if frame[0] == ACTION_SERVICE {
            self.session.serve(&frame);
            return false;
        }
        reply.copy_from_slice(&self.answer(&frame));
        true
    }

    #[tactic(auto, using(crate::proofs::Turns::tick_laws))]
    fn tick(&mut self) {
        if let State::Waiting { left } = self.session.state {
            self.session.state = if left <= 1 {
                self.launched()
            } else {
                State::Waiting { left: left - 1 }
            };
        }
    }
}
