// A log as it is read, line by line.
ghost use Rattle.std.specs.Prelude.{◌≡◌, ◌∷◌, [], ◌++◌, IfOk, IfSome, Ok, Some, map, replicate};
ghost use Rattle.board.specs.Line.{saying_by};
ghost use Rattle.board.specs.Log.{blank, plan_so_far, added, with_plan, with_start, with_ticks, begin, completed, is_told, checked, log_of, draft_by, log_by};
ghost use Rattle.board.specs.Replay.{event_by};
ghost use Rattle.bootloader.specs.Events.{tick};
ghost use Rattle.board.specs.Stage.{told_by, meant_by};
ghost use Rattle.board.specs.declared.draft.LogError.TheVariants.{Memory, Refused};

use crate::fault::{Fault, LineError, Refusal};
use crate::happening::Happening;
use crate::line::{Said, read_line};
use crate::plan::{BENCH, Memory, Plan};
use std::alloc::{AllocError, Global};

// The most ticks of a log.
pub const MAX_TICKS: usize = 1_000_000;

// What a memory shows at the start, and the line that says so.
#[derive(Drop)]
pub struct Start {
    pub line: usize,
    pub memory: Memory,
    pub bytes: Vec<u8>,
}

// A log: the board, what its memories show at the start, and what reaches it.
#[derive(Drop)]
pub struct Log {
    pub plan: Plan,
    pub starts: Vec<Start>,
    pub happenings: Vec<Happening>,
}

// What the lines so far have said.
#[derive(Drop)]
struct Draft {
    plan: Option<Plan>,
    starts: Vec<Start>,
    // a frame or a tick was read, and what the board is made of and holds is settled
    begun: bool,
    // how many ticks more a log can have
    left: usize,
    happenings: Vec<Happening>,
}

// Why there is no log.
#[derive(Clone, Copy, PartialEq, Eq, Debug)]
pub enum LogError<'a> {
    Refused(Refusal<'a>),
    Memory(AllocError),
}

impl From<AllocError> for LogError<'_> {
    ghost from_gives = { λ error r. r ≡ Memory error };

    fn from(error: AllocError) -> Self {
        Self::Memory(error)
    }
}

// Reads a log. The first line that is wrong is told.
pub fn read_log(heap: Global, text: &[u8]) -> Result<Log, LogError<'_>>
    ensures { IfSome (log_by meant_by result) (λ r. r ≡ log_of text.now) }
{
    let mut draft = Draft::new(heap);
    for (index, line) in text.split(|byte| *byte == b'\n').enumerate() {
        let number = index + 1;
        match read_line(heap, line) {
            Ok(said) => draft = draft.add(number, said)?,
            Err(LineError::Wrong(fault)) => return Err(refused(number, fault)),
            Err(LineError::Memory(error)) => return Err(LogError::Memory(error)),
        }
    }
    draft.complete()
}

impl Draft {
    fn new(heap: Global) -> Draft
        ensures { draft_by result ≡ blank }
    {
        Draft {
            plan: None,
            starts: Vec::new(heap),
            begun: false,
            left: MAX_TICKS,
            happenings: Vec::new(heap),
        }
    }

    // What the board is made of, by the lines so far.
    fn plan(&self) -> Plan
        ensures { result ≡ plan_so_far (draft_by self.now) }
    {
        self.plan.unwrap_or(BENCH)
    }

    // With what a line says, which has this number.
    fn add<'a>(self, number: usize, said: Said) -> Result<Draft, LogError<'a>>
        ensures { IfSome (log_by draft_by result) (λ r. r ≡ added number (draft_by self) (saying_by said)) }
    {
        match said {
            Said::Nothing => Ok(self),
            Said::Board(plan) => self.with_plan(number, plan),
            Said::Start { memory, bytes } => self.with_start(number, memory, bytes),
            Said::Ticks(ticks) => self.begin()?.with_ticks(number, ticks),
            Said::Frame(frame) => self.begin()?.with_frame(frame),
        }
    }

    fn with_plan<'a>(mut self, number: usize, plan: Plan) -> Result<Draft, LogError<'a>>
        ensures { IfSome (log_by draft_by result) (λ r. r ≡ with_plan number (draft_by self) plan) }
    {
        if self.begun {
            return Err(refused(number, Fault::Late));
        }
        if self.plan.is_some() {
            return Err(refused(number, Fault::SecondBoard));
        }
        self.plan = Some(plan);
        Ok(self)
    }

    // With the contents of a memory, which one line may tell.
    fn with_start<'a>(
        mut self,
        line: usize,
        memory: Memory,
        bytes: Vec<u8>,
    ) -> Result<Draft, LogError<'a>>
        ensures { IfSome (log_by draft_by result) (λ r. r ≡ with_start line (draft_by self) memory bytes.items) }
    {
        if self.begun {
            return Err(refused(line, Fault::Late));
        }
        if is_told(memory, self.starts.as_slice()) {
            return Err(refused(line, Fault::ToldTwice(memory)));
        }
        let start = Start {
            line,
            memory,
            bytes,
        };
        self.starts.push(start).map_err(AllocError::from)?;
        Ok(self)
    }

    // With so many ticks.
    fn with_ticks<'a>(mut self, number: usize, ticks: usize) -> Result<Draft, LogError<'a>>
        ensures { IfSome (log_by draft_by result) (λ r. r ≡ with_ticks number (draft_by self) ticks) }
    {
        let Some(left) = self.left.checked_sub(ticks) else {
            return Err(refused(number, Fault::TooManyTicks));
        };
        self.left = left;
        push_ticks(&mut self.happenings, ticks)?;
        Ok(self)
    }

    fn with_frame<'a>(mut self, frame: Happening) -> Result<Draft, LogError<'a>>
        ensures { IfSome (log_by draft_by result) (λ r. r ≡ Ok (record (draft_by self) { events = (draft_by self).events ++ (event_by frame ∷ []) })) }
    {
        self.happenings.push(frame).map_err(AllocError::from)?;
        Ok(self)
    }

    // Before the first frame or tick the contents at the start are looked at: by now the lengths are known.
    fn begin<'a>(mut self) -> Result<Draft, LogError<'a>>
        ensures { IfSome (log_by draft_by result) (λ r. r ≡ begin (draft_by self)) }
    {
        if !self.begun {
            check_starts(self.plan(), self.starts.as_slice())?;
            self.begun = true;
        }
        Ok(self)
    }

    // The log, behind the last line.
    fn complete<'a>(self) -> Result<Log, LogError<'a>>
        ensures { IfSome (log_by meant_by result) (λ r. r ≡ completed (draft_by self)) }
    {
        let draft = self.begin()?;
        Ok(Log {
            plan: draft.plan(),
            starts: draft.starts,
            happenings: draft.happenings,
        })
    }
}

// Whether one of these lines tells the contents of a memory.
#[tactic(auto, unfolding(crate::specs::Log::is_told))]
fn is_told(memory: Memory, starts: &[Start]) -> bool
    ensures { result ≡ is_told memory (map told_by starts.now) }
{
    for start in starts {
        if start.memory == memory {
            return true;
        }
    }
    false
}

// No contents may be longer than their memory.
#[tactic(auto, unfolding(crate::specs::Log::checked))]
fn check_starts<'a>(plan: Plan, starts: &[Start]) -> Result<(), LogError<'a>>
    ensures { log_by (λ u. u) result ≡ Some (checked plan (map told_by starts.now)) }
{
    for start in starts {
        if start.bytes.len() > plan.len_of(start.memory) {
            return Err(refused(start.line, Fault::TooLong(start.memory)));
        }
    }
    Ok(())
}

// Adds so many ticks.
fn push_ticks(happenings: &mut Vec<Happening>, ticks: usize) -> Result<(), AllocError>
    ensures { IfOk result (λ _. map event_by happenings.new.items ≡ map event_by happenings.old.items ++ replicate ticks tick) }
{
    for _ in 0..ticks {
        happenings.push(Happening::Tick).map_err(AllocError::from)?;
    }
    Ok(())
}

fn refused<'a>(number: usize, fault: Fault<'a>) -> LogError<'a>
    ensures { result ≡ Refused (record { number = number; fault = fault.entry }) }
{
    LogError::Refused(Refusal { number, fault })
}
