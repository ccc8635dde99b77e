// A file as a text: what is printed of its load into the bench board, and why it was not loaded.
ghost use Rattle.std.specs.Prelude.{◌≡◌, IfOk, None};
ghost use Rattle.loader.specs.declared.file.Reason.TheVariants.{TextSize};
ghost use Rattle.loader.specs.Verdict.{refusal_at};
ghost use Rattle.loading.specs.Texts.{refused_report};
ghost use Rattle.load.specs.Text.{LoadsInto, Tells};

use crate::bench::{BenchBoard, bench_board};
use crate::cause::Cause;
use crate::output::output_of;
use link::{Link, Port, Traced, TracedFrame, Wire};
use loader::{Reason, Refusal};
use loading::{Outcome, Report, load};
use std::alloc::{AllocError, Global};

// A longer text is refused.
pub const MAX_TEXT: usize = 65_536;

// The number of the flash as a target, and a size, which is not looked at for it.
const FLASH: u8 = 0;

const NO_SIZE: u64 = 0;

// What is printed of a load, and why the file was not loaded, if it was not.
#[derive(Drop)]
pub struct Loaded {
    pub output: String,
    pub cause: Option<Cause>,
}

// A wire to the bench board, on which nothing is lost, with what goes over it kept.
pub type BenchLink = Traced<Wire<BenchBoard>>;

// Loads a text into the bench board, over a wire on which nothing is lost.
pub fn load_text(heap: Global, text: &[u8]) -> Result<Loaded, AllocError>
    ensures { IfOk result (λ x. LoadsInto ⟦<BenchLink as Port>⟧.exchanged ⟦<BenchLink as Port>⟧.exchanges ⟦<BenchLink as Link>⟧.board text.now x) }
{
    if text.len() > MAX_TEXT {
        let report = too_long();
        return told(heap, &[], &report);
    }
    let mut link = Traced::new(heap, Wire::new(bench_board(heap)?));
    let report = load(&mut link, text, FLASH, NO_SIZE);
    let (_wire, trace) = link.into_parts();
    if trace.is_cut {
        return Err(AllocError);
    }
    told(heap, trace.frames.as_slice(), &report)
}

// What is said of exchanges and the report behind them.
fn told(heap: Global, exchanges: &[TracedFrame], report: &Report) -> Result<Loaded, AllocError>
    ensures { IfOk result (λ x. Tells exchanges.now report.now x) }
{
    Ok(Loaded {
        output: output_of(heap, exchanges, report)?,
        cause: Cause::of(report.outcome),
    })
}

// The report of a text that is too long.
fn too_long() -> Report
    ensures { result ≡ refused_report (refusal_at TextSize None) }
{
    Report {
        outcome: Outcome::File(Refusal::from(Reason::TextSize)),
        frames: 0,
        sectors: 0,
        acknowledged: false,
    }
}
