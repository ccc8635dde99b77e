// The line that says what the board is made of.
ghost use Rattle.std.specs.Prelude.{◌≡◌};
ghost use Rattle.script.specs.Number.{number_of, hex_number_of};
ghost use Rattle.script.specs.Words.{words_left};
ghost use Rattle.board.specs.Fault.{read_by};
ghost use Rattle.board.specs.Frame.{limited};
ghost use Rattle.board.specs.Settings.{wait_of, once, named, set_with, set_all, unset, row_set, plan_of, board_of};

use crate::fault::Fault;
use crate::frame::cut_at;
use crate::plan::{BENCH, BENCH_ROW, Plan};
use bootloader::{Setup, Wait};
use geometry::{Row, row_of};
use memory::MAX_LENGTH;
use script::{Words, read_hex, read_number};

// What a value has to be, as messages tell it.
const BASE: &str = "base= and at most 32 bits in hex digits";

const SECTORS: &str = "sectors= and a number";

const WORDS: &str = "words= and a number";

const PART: &str = "part= and at most 16 bits in hex digits";

const BOOT: &str = "boot= and a number of at most 1,048,576";

const DATA: &str = "data= and a number of at most 1,048,576";

const MAJOR: &str = "major= and a number of at most 255";

const MINOR: &str = "minor= and a number of at most 255";

const WAIT: &str = "wait=2000 or wait=16000";

// Nothing is set.
const UNSET: Settings = Settings {
    base: None,
    sectors: None,
    words: None,
    part: None,
    boot: None,
    eeprom: None,
    major: None,
    minor: None,
    wait: None,
};

// What was set so far.
#[derive(Clone, Copy)]
pub struct Settings {
    base: Option<u32>,
    sectors: Option<usize>,
    words: Option<usize>,
    part: Option<u16>,
    boot: Option<usize>,
    eeprom: Option<usize>,
    major: Option<u8>,
    minor: Option<u8>,
    wait: Option<Wait>,
}

// The board of these settings; what is not set is by the part ID, or else as on the bench.
pub fn read_board(words: Words<'_>) -> Result<Plan, Fault<'_>>
    ensures { read_by result ≡ board_of (words_left words.entry) }
{
    let settings = read_settings(words)?;
    settings.plan()
}

// What the words set, one after the other.
#[tactic(auto, unfolding(crate::specs::Settings::set_all))]
fn read_settings(mut words: Words<'_>) -> Result<Settings, Fault<'_>>
    ensures { read_by result ≡ set_all unset (words_left words.entry) }
{
    let mut settings = UNSET;
    while let Some(word) = words.next() {
        settings = settings.with(word)?;
    }
    Ok(settings)
}

impl Settings {
    // With one setting more, which must not have been set before.
    fn with<'a>(self, word: &'a str) -> Result<Settings, Fault<'a>>
        ensures { read_by result ≡ set_with self word.now }
    {
        let (name, value) = cut_at(word, '=').ok_or(Fault::NoSetting(word))?;
        self.set(word, name, value)
    }

    // With the value that a word gives the setting of a name.
    fn set<'a>(self, word: &'a str, name: &str, value: &str) -> Result<Settings, Fault<'a>>
        ensures { read_by result ≡ named self word.now name.now value.now }
    {
        match name {
            "base" => {
                let base = once(self.base, read_32(value), BASE, word)?;
                Ok(Settings { base, ..self })
            }
            "sectors" => {
                let sectors = once(self.sectors, read_number(value), SECTORS, word)?;
                Ok(Settings { sectors, ..self })
            }
            "words" => {
                let words = once(self.words, read_number(value), WORDS, word)?;
                Ok(Settings { words, ..self })
            }
            "part" => {
                let part = once(self.part, read_16(value), PART, word)?;
                Ok(Settings { part, ..self })
            }
            "boot" => {
                let boot = once(self.boot, read_length(value), BOOT, word)?;
                Ok(Settings { boot, ..self })
            }
            "data" => {
                let eeprom = once(self.eeprom, read_length(value), DATA, word)?;
                Ok(Settings { eeprom, ..self })
            }
            "major" => {
                let major = once(self.major, read_byte(value), MAJOR, word)?;
                Ok(Settings { major, ..self })
            }
            "minor" => {
                let minor = once(self.minor, read_byte(value), MINOR, word)?;
                Ok(Settings { minor, ..self })
            }
            "wait" => {
                let wait = once(self.wait, read_wait(value), WAIT, word)?;
                Ok(Settings { wait, ..self })
            }
            _ => Err(Fault::NoSetting(word)),
        }
    }

    // The row of the part ID that is set, if it is listed.
    fn row(self) -> Option<Row>
        ensures answer { result ≡ row_set self }
    {
        row_of(self.part?)
    }

    // The board, if it has a flash.
    fn plan<'a>(self) -> Result<Plan, Fault<'a>>
        ensures { read_by result ≡ plan_of self }
    {
        let row = self.row().unwrap_or(BENCH_ROW);
        let setup = Setup {
            base: self.base.unwrap_or(row.base),
            part_id: self.part.unwrap_or(BENCH.setup.part_id),
            major: self.major.unwrap_or(BENCH.setup.major),
            minor: self.minor.unwrap_or(BENCH.setup.minor),
            wait: self.wait.unwrap_or(BENCH.setup.wait),
        };
        let plan = Plan {
            setup,
            sectors: self.sectors.unwrap_or(row.sectors as usize),
            words: self.words.unwrap_or(row.words as usize),
            boot: self.boot.unwrap_or(BENCH.boot),
            eeprom: self.eeprom.unwrap_or(BENCH.eeprom),
        };
        if plan.has_flash() {
            Ok(plan)
        } else {
            Err(Fault::NoFlash)
        }
    }
}

// The value of a setting that was not set before.
fn once<'a, T: Copy>(
    before: Option<T>,
    value: Option<T>,
    wanted: &'static str,
    word: &'a str,
) -> Result<Option<T>, Fault<'a>>
    ensures { read_by result ≡ once before value wanted.now word.now }
{
    if before.is_some() {
        return Err(Fault::SetTwice(word));
    }
    let value = value.ok_or(Fault::NotValue { wanted, word })?;
    Ok(Some(value))
}

// The number of 32 bits that hex digits write.
fn read_32(word: &str) -> Option<u32>
    ensures { result ≡ limited 0xFFFFFFFF (hex_number_of word.now) }
{
    let number = read_hex(word)?;
    u32::try_from(number).ok()
}

// The number of 16 bits that hex digits write.
fn read_16(word: &str) -> Option<u16>
    ensures { result ≡ limited 0xFFFF (hex_number_of word.now) }
{
    let number = read_hex(word)?;
    u16::try_from(number).ok()
}

fn read_byte(word: &str) -> Option<u8>
    ensures { result ≡ limited 255 (number_of word.now) }
{
    let number = read_number(word)?;
    u8::try_from(number).ok()
}

// The length that an EEPROM can have.
fn read_length(word: &str) -> Option<usize>
    ensures { result ≡ limited 1048576 (number_of word.now) }
{
    let number = read_number(word)?;
    (number <= MAX_LENGTH).then_some(number)
}

fn read_wait(word: &str) -> Option<Wait>
    ensures { result ≡ wait_of (number_of word.now) }
{
    match read_number(word)? {
        2_000 => Some(Wait::TwoSeconds),
        16_000 => Some(Wait::SixteenSeconds),
        _ => None,
    }
}
