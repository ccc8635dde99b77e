// What is planned for a file, a target and a listed board.
ghost use Rattle.std.specs.Prelude.{◌≡◌, ◌≤◌, ◌<◌, ◌+◌, ◌*◌, length, Some};
ghost use Rattle.bootloader.specs.Memories.{offset_in};
ghost use Rattle.geometry.specs.Rows.{IsRow};
ghost use Rattle.loading.specs.Mask.{Piece};
ghost use Rattle.loading.specs.Mask.{marked, marking, unit_in};
ghost use Rattle.loading.specs.Plan.{place_in, long_at, mask_with, empty_plan, plan_with as planned_with, plan_from, plan_of as planned_of};
ghost use Rattle.loading.specs.Source.{record_by};

use crate::source::Source;
use geometry::{Row, row_of};
use loader::Target;
use memory::{CRC_START, crc_over};
use session::Failure;
use srecord::Record;

// Why a load came to no good end.
#[derive(Clone, Copy, PartialEq, Eq, Debug)]
pub enum Stop {
    // the board is not listed
    NoRow,
    // a record lies outside of the target
    Outside { line: usize },
    // a command was not accepted
    Sending(Failure),
}

// What is cleared, and the CRC over all records.
#[derive(Clone, Copy, PartialEq, Eq, Debug)]
pub struct Plan {
    pub mask: u32,
    pub image_crc: u16,
}

// The offset of bytes that lie in so many bytes from a base on.
fn offset_in(base: u32, width: u32, long: u64, address: u32, count: usize) -> Option<u64>
    requires narrow { width ≤ 2 }
    requires few { count ≤ 252 }
    ensures { result ≡ offset_in base width long address count }
{
    if address < base {
        return None;
    }
    let offset = u64::from(address - base) * u64::from(width);
    (offset + count as u64 <= long).then_some(offset)
}

// The offset of bytes in a target.
fn place_in(target: Target, row: Row, address: u32, count: usize) -> Option<u64>
    requires lawful { IsRow row }
    requires few { count ≤ 252 }
    ensures { result ≡ place_in target row address count }
{
    match target {
        Target::Flash => offset_in(row.base, 2, flash_length(row), address, count),
        Target::Boot { size } | Target::Data { size } => offset_in(0, 1, size, address, count),
    }
}

// The bytes of all sectors.
fn flash_length(row: Row) -> u64
    requires lawful { IsRow row }
    ensures { result ≡ row.sectors * (2 * row.words) }
{
    u64::from(row.sectors) * (2 * u64::from(row.words))
}

// Sets n bits from one on.
#[tactic(auto, unfolding(crate::specs::Mask::marked))]
fn marked(mask: u32, low: u32, count: u32) -> u32
    requires { low + count ≤ 32 }
    ensures { result ≡ marked mask low count }
{
    let mut mask = mask;
    for step in 0..count {
        mask |= 1 << (low + step);
    }
    mask
}

// Sets the bits of the sectors that bytes touch.
fn marking(row: Row, mask: u32, offset: u64, bytes: &[u8]) -> u32
    requires lawful { IsRow row }
    requires some { 0 < length bytes.now }
    requires few { length bytes.now ≤ 252 }
    requires inside { offset + length bytes.now ≤ row.sectors * (2 * row.words) }
    ensures { result ≡ marking row.sectors (2 * row.words) mask
        (record { at = offset; bytes = bytes.now }) }
{
    let low = unit_of(row, offset + bytes.len() as u64 - 1);
    let high = unit_of(row, offset);
    marked(mask, low, (high + 1).saturating_sub(low))
}

// The unit of an offset: sector A is unit 0 and has the highest offsets.
fn unit_of(row: Row, offset: u64) -> u32
    requires lawful { IsRow row }
    requires inside { offset < row.sectors * (2 * row.words) }
    ensures answer { result ≡ unit_in row.sectors (2 * row.words) offset }
    ensures below { result < row.sectors }
{
    let sector = offset / (2 * u64::from(row.words));
    row.sectors - 1 - sector as u32
}

// A plan with one record more.
fn plan_with(target: Target, row: Row, plan: Plan, read: Record<'_>) -> Result<Plan, Stop>
    requires { IsRow row }
    ensures { result ≡ planned_with target row plan (record_by read.entry) }
{
    let Some(bytes) = read.bytes() else {
        return Ok(plan);
    };
    if bytes.as_slice().is_empty() {
        return Ok(plan);
    }
    let Some(offset) = place_in(target, row, read.address, bytes.as_slice().len()) else {
        return Err(Stop::Outside { line: read.line });
    };
    Ok(Plan {
        mask: mask_with(target, row, plan.mask, offset, bytes.as_slice()),
        image_crc: crc_over(plan.image_crc, bytes.as_slice()),
    })
}

// A mask with what bytes at a place touch; it stays as it is for an EEPROM.
fn mask_with(target: Target, row: Row, mask: u32, offset: u64, bytes: &[u8]) -> u32
    requires lawful { IsRow row }
    requires some { 0 < length bytes.now }
    requires few { length bytes.now ≤ 252 }
    requires inside { offset + length bytes.now ≤ long_at target row }
    ensures { result ≡ mask_with target row mask (record { at = offset; bytes = bytes.now }) }
{
    match target {
        Target::Flash => marking(row, mask, offset, bytes),
        Target::Boot { .. } | Target::Data { .. } => mask,
    }
}

// The plan for the records of a source.
fn plan_records<'a, S: Source<'a>>(target: Target, row: Row, source: S) -> Result<Plan, Stop>
    requires { IsRow row }
    ensures { result ≡ plan_from target row empty_plan (S.records source) }
{
    let mut source = source;
    let mut plan = Plan {
        mask: 0,
        image_crc: CRC_START,
    };
    while let Some(record) = source.next_record() {
        plan = plan_with(target, row, plan, record)?;
    }
    Ok(plan)
}

// The plan for a board with this reply to Connect.
pub fn plan_of<'a, S: Source<'a>>(
    target: Target,
    identity: &[u8; 8],
    source: S,
) -> Result<Plan, Stop>
    ensures { result ≡ planned_of target identity.now (S.records source) }
{
    let row = row_of(u16::from_be_bytes([identity[5], identity[6]])).ok_or(Stop::NoRow)?;
    plan_records(target, row, source)
}
