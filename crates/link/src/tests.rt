// Wires with outcomes at the edges of a table, and a trace, on a board of small parts. The replies are those of the
// protocol.
use crate::{MAX_OUTCOMES, Outcome, Port, TableWire, Traced, TracedFrame, Wire};
use bootloader::{Bootloader, Setup, Wait};
use memory::{Crossing, Eeprom, Flash};
use std::alloc::{AllocError, Global};
use std::process::Abort;
use std::test::Fail;

type SmallBoard = Bootloader<Crossing<Flash>, Eeprom, Eeprom>;

// Revision 1.0, part ID 1, all memories blank.
fn small_board(heap: Global) -> Result<SmallBoard, AllocError> {
    let setup = Setup {
        base: 0x1000,
        part_id: 1,
        major: 1,
        minor: 0,
        wait: Wait::TwoSeconds,
    };
    let flash = Flash::new([0xFF; 128].to_vec(heap)?, 4, 16);
    let boot = Eeprom::new([0xFF; 64].to_vec(heap)?);
    let eeprom = Eeprom::new([0xFF; 64].to_vec(heap)?);
    Ok(Bootloader::new(setup, Crossing::new(flash), boot, eeprom))
}

const fn connect(counter: u8) -> [u8; 8] {
    [0x01, counter, 0, 0, 0, 0, 0, 0]
}

// Set MTA, to address 0 of the flash.
const fn set_mta(counter: u8) -> [u8; 8] {
    [0x02, counter, 0, 0, 0, 0, 0, 0]
}

const fn connected(counter: u8) -> [u8; 8] {
    [0xFF, 0x00, counter, 1, 0, 0, 1, 0]
}

const fn accepted(counter: u8) -> [u8; 8] {
    [0xFF, 0x00, counter, 0, 0, 0, 0, 0]
}

// Set MTA is refused where no host is connected.
const fn not_connected(counter: u8) -> [u8; 8] {
    [0xFF, 0x33, counter, 0, 0, 0, 0, 0]
}

// Sends frames over a port, and compares what is answered.
fn check_replies(
    rt: &impl Abort,
    port: &mut impl Port,
    expected: &[([u8; 8], Option<[u8; 8]>)],
) -> Result<(), Fail> {
    for (frame, reply) in expected {
        assert_eq!(rt; port.exchange(frame), *reply);
    }
    Ok(())
}

// The board does not see the first Connect, and sees the second one, of which the reply is lost.
#[test]
fn outcomes_in_order(rt: HostRuntime) -> Result<(), Fail> {
    let table = [Outcome::FrameLost, Outcome::Arrives, Outcome::ReplyLost];
    let mut wire = TableWire::new(small_board(rt.alloc())?, &table).map_err(|_| "refused")?;
    let expected = [
        (connect(0), None),
        (set_mta(1), Some(not_connected(1))),
        (connect(2), None),
        // nothing more is lost
        (set_mta(3), Some(accepted(3))),
        (connect(4), Some(connected(4))),
    ];
    check_replies(&rt, &mut wire, &expected)?;
    assert_eq!(rt; wire.exchanges(), 5);
    Ok(())
}

// The longest table, and one that is too long.
#[test]
fn longest_table(rt: HostRuntime) -> Result<(), Fail> {
    let lost = [Outcome::FrameLost; MAX_OUTCOMES];
    let mut wire = TableWire::new(small_board(rt.alloc())?, &lost).map_err(|_| "refused")?;
    check_replies(&rt, &mut wire, &[(connect(0), None); 64])?;
    check_replies(&rt, &mut wire, &[(set_mta(0), Some(not_connected(0)))])?;
    assert_eq!(rt; wire.exchanges(), 65);
    let longer = TableWire::new(wire.into_device(), &[Outcome::Arrives; 65]);
    assert!(rt; longer.is_err());
    Ok(())
}

// The trace is whole, and the board has seen what it tells.
#[test]
fn kept_in_order(rt: HostRuntime) -> Result<(), Fail> {
    let table = [Outcome::ReplyLost];
    let wire = TableWire::new(small_board(rt.alloc())?, &table).map_err(|_| "refused")?;
    let mut traced = Traced::new(rt.alloc(), wire);
    let expected = [(connect(0), None), (set_mta(1), Some(accepted(1)))];
    check_replies(&rt, &mut traced, &expected)?;
    assert_eq!(rt; traced.exchanges(), 2);
    let (wire, trace) = traced.into_parts();
    let kept = expected.map(|(frame, reply)| TracedFrame { frame, reply });
    assert_eq!(rt;
        (trace.frames.as_slice(), trace.is_cut),
        (kept.as_slice(), false)
    );
    let mut wire = Wire::new(wire.into_device());
    check_replies(&rt, &mut wire, &[(set_mta(2), Some(accepted(2)))])?;
    assert_eq!(rt; wire.exchanges(), 1);
    Ok(())
}
