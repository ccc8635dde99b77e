// The commands that are answered, as frames of eight bytes write them. The byte behind the code is the frame's counter, which
// no command looks at.
ghost use Rattle.std.specs.Prelude.{◌≡◌, Some, slice_index};
ghost use Rattle.bootloader.specs.Frames.{command_of, frame_of};

// The codes of the commands, by which a frame begins.
const CONNECT: u8 = 0x01;

const SET_MTA: u8 = 0x02;

const DOWNLOAD: u8 = 0x03;

const DISCONNECT: u8 = 0x07;

const BUILD_CHECKSUM: u8 = 0x0E;

const CLEAR: u8 = 0x10;

const UNLOCK: u8 = 0x13;

const DOWNLOAD_SIX: u8 = 0x23;

// What a Disconnect asks for in its byte 4: the end of the session.
const END: u8 = 1;

#[derive(Clone, Copy, PartialEq, Eq, Debug)]
pub enum Command {
    Connect,
    SetMta {
        number: u8,
        extension: u8,
        address: u32,
    },
    Unlock {
        size: u8,
        password: u16,
    },
    Clear {
        mask: u32,
    },
    Download {
        size: u8,
        bytes: [u8; 5],
    },
    DownloadSix {
        bytes: [u8; 6],
    },
    BuildChecksum {
        size: u32,
        crc: u16,
    },
    Disconnect {
        kind: u8,
    },
}

impl Command {
    // The command of a frame; none where no command has its code.
    pub fn of(frame: &[u8; 8]) -> Option<Command>
        ensures { result ≡ command_of frame.now }
    {
        let [code, _, a, b, c, d, e, f] = *frame;
        match code {
            CONNECT => Some(Command::Connect),
            SET_MTA => Some(Command::SetMta {
                number: a,
                extension: b,
                address: u32::from_be_bytes([c, d, e, f]),
            }),
            DOWNLOAD => Some(Command::Download {
                size: a,
                bytes: [b, c, d, e, f],
            }),
            DISCONNECT => Some(Command::Disconnect { kind: a }),
            BUILD_CHECKSUM => Some(Command::BuildChecksum {
                size: u32::from_be_bytes([a, b, c, d]),
                crc: u16::from_be_bytes([e, f]),
            }),
            CLEAR => Some(Command::Clear {
                mask: u32::from_be_bytes([a, b, c, d]),
            }),
            UNLOCK => Some(Command::Unlock {
                size: a,
                password: u16::from_be_bytes([b, c]),
            }),
            DOWNLOAD_SIX => Some(Command::DownloadSix {
                bytes: [a, b, c, d, e, f],
            }),
            _ => None,
        }
    }

    // The frame that says the command, with this counter; bytes that the command does not name are 0.
    pub fn frame(self, counter: u8) -> [u8; 8]
        ensures answer { result ≡ frame_of counter self }
        ensures read { command_of result ≡ Some self }
        ensures counter { slice_index result 1 ≡ counter }
    {
        let (code, [a, b, c, d, e, f]) = match self {
            Command::Connect => (CONNECT, [0; 6]),
            Command::SetMta {
                number,
                extension,
                address,
            } => {
                let [a, b, c, d] = address.to_be_bytes();
                (SET_MTA, [number, extension, a, b, c, d])
            }
            Command::Unlock { size, password } => {
                let [high, low] = password.to_be_bytes();
                (UNLOCK, [size, high, low, 0, 0, 0])
            }
            Command::Clear { mask } => {
                let [a, b, c, d] = mask.to_be_bytes();
                (CLEAR, [a, b, c, d, 0, 0])
            }
            Command::Download { size, bytes } => {
                let [a, b, c, d, e] = bytes;
                (DOWNLOAD, [size, a, b, c, d, e])
            }
            Command::DownloadSix { bytes } => (DOWNLOAD_SIX, bytes),
            Command::BuildChecksum { size, crc } => {
                let [a, b, c, d] = size.to_be_bytes();
                let [high, low] = crc.to_be_bytes();
                (BUILD_CHECKSUM, [a, b, c, d, high, low])
            }
            Command::Disconnect { kind } => (DISCONNECT, [kind, 0, END, 0, 0, 0]),
        };
        [code, counter, a, b, c, d, e, f]
    }
}
