// Loading a text: the file check first, and then the records of the text.
ghost use Rattle.std.specs.Prelude.{◌≡◌};
ghost use Rattle.loading.specs.Load.{Loads, IsBounded, IsTold};
ghost use Rattle.loading.specs.Promises.{IsHeard, Promises};
ghost use Rattle.loading.specs.Texts.{refused_report, LoadsText, IsBoundedText, IsToldText, IsJudged, Promised};
ghost use Rattle.loader.specs.Target.{target_of};

use crate::delivery::load_through;
use crate::report::{Outcome, Report};
use crate::source::Source;
use bootloader::{board_laws, bus_law};
use link::{Link, Port};
use loader::{Reason, Refusal, Target, check_for};
use session::session_laws;
use srecord::Reader;

// Loads a text into the board at the far end of a link. The target is 0 for the flash, 2 for the
// EEPROM of the bootloader and 3 for that of the data, with its size in bytes; a size told for the
// flash is not looked at.
pub fn load<L: Link>(link: &mut L, text: &[u8], target: u8, size: u64) -> Report
    ensures answer { LoadsText L.exchanged L.exchanges
        text.now target size link.old result link.new }
    ensures bounded { IsBoundedText L.exchanged text.now link.old result link.new }
    ensures told { IsToldText L.exchanged target size link.old result link.new }
    ensures heard { IsHeard L.exchanged L.board link.old link.new }
    ensures promised { Promised text.now target size
        (L.lossless link.old) result (L.board link.old) (L.board link.new) }
{
    board_laws();
    bus_law();
    session_laws::<L>();
    load_text_through(link, text, target, size)
}

// The same through a port of which no board is known.
pub fn load_text_through<P: Port>(port: &mut P, text: &[u8], target: u8, size: u64) -> Report
    ensures answer { LoadsText P.exchanged P.exchanges
        text.now target size port.old result port.new }
    ensures bounded { IsBoundedText P.exchanged text.now port.old result port.new }
    ensures told { IsToldText P.exchanged target size port.old result port.new }
    ensures law { IsJudged text.now (target_of target size) }
{
    let Some(target) = Target::of(target, size) else {
        return refused(Refusal::from(Reason::Target));
    };
    match check_for(text, target) {
        Ok(()) => load_through(port, target, Reader::new(text)),
        Err(refusal) => refused(refusal),
    }
}

// The report of a file that is refused.
fn refused(refusal: Refusal) -> Report
    ensures { result ≡ refused_report refusal }
{
    Report {
        outcome: Outcome::File(refusal),
        frames: 0,
        sectors: 0,
        acknowledged: false,
    }
}

// Loads the records of any source into the board at the far end of a link.
pub fn load_records<'a, L: Link, S: Source<'a>>(link: &mut L, target: Target, source: S) -> Report
    ensures answer { Loads L.exchanged target L.exchanges
        link.old (S.records source) result link.new }
    ensures bounded { IsBounded L.exchanged link.old (S.records source) result link.new }
    ensures told { IsTold L.exchanged target link.old result link.new }
    ensures heard { IsHeard L.exchanged L.board link.old link.new }
    ensures promises { Promises (S.records source) target
        (L.lossless link.old) result (L.board link.old) (L.board link.new) }
{
    board_laws();
    bus_law();
    session_laws::<L>();
    load_through(link, target, source)
}
