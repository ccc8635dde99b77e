// A load through a port: what is sent, and what came of it.
ghost use Rattle.std.specs.Prelude.{◌≡◌};
ghost use Rattle.session.specs.Session.{SentAll};
ghost use Rattle.loading.specs.Load.{closing, sectors_of, done_by, Follows, Delivers, Ends, Runs, Loads, IsBounded, IsTold};
ghost use Rattle.loading.specs.Plan.{plan_of as planned_of};

use crate::planning::{Plan, Stop, plan_of};
use crate::records::send_records;
use crate::report::{Outcome, Report};
use crate::source::Source;
use crate::target::{prepare, space_at};
use bootloader::Command;
use link::Port;
use loader::Target;
use session::{Connection, Failure, connect};

// Loads the records of a source through a port.
pub fn load_through<'a, P: Port, S: Source<'a>>(port: &mut P, target: Target, source: S) -> Report
    ensures answer { Loads P.exchanged target P.exchanges
        port.old (S.records source) result port.new }
    ensures bounded { IsBounded P.exchanged port.old (S.records source) result port.new }
    ensures told { IsTold P.exchanged target port.old result port.new }
{
    let before = port.exchanges();
    let (done, sectors, acknowledged) = run(port, target, source);
    Report {
        outcome: Outcome::of(done),
        frames: port.exchanges().wrapping_sub(before),
        sectors,
        acknowledged,
    }
}

// Opens a connection, sends what the board needs, and ends the connection. Says what came of it,
// how many sectors were cleared, and whether Disconnect was acknowledged.
fn run<'a, P: Port, S: Source<'a>>(
    port: &mut P,
    target: Target,
    source: S,
) -> (Result<Plan, Stop>, u32, bool)
    ensures { Runs P.exchanged target
        port.old (S.records source) result.0 result.1 result.2 port.new }
{
    match connect(port) {
        Err(failure) => (Err(Stop::Sending(failure)), 0, false),
        Ok(opened) => {
            let (mut connection, identity) = opened;
            let (done, sectors) = deliver(port, &mut connection, &identity, target, source);
            let acknowledged = end(port, connection, target, done);
            (done, sectors, acknowledged)
        }
    }
}

// Sends what a board needs that answered Connect so, if it is listed and all records lie in the
// target.
fn deliver<'a, P: Port, S: Source<'a>>(
    port: &mut P,
    connection: &mut Connection,
    identity: &[u8; 8],
    target: Target,
    source: S,
) -> (Result<Plan, Stop>, u32)
    ensures { Delivers P.exchanged target port.old connection.old.counter (S.records source)
        (planned_of target identity.now (S.records source)) result.0 result.1
        port.new connection.new.counter }
{
    match plan_of(target, identity, source) {
        Err(stop) => (Err(stop), 0),
        Ok(plan) => {
            let (sent, cleared) = follow(port, connection, target, source, plan);
            let sectors = if cleared { sectors_of(target, plan) } else { 0 };
            (done_by(plan, sent), sectors)
        }
    }
}

// How many sectors the Clear of a plan clears.
fn sectors_of(target: Target, plan: Plan) -> u32
    ensures { result ≡ sectors_of target plan }
{
    match target {
        Target::Flash => plan.mask.count_ones(),
        Target::Boot { .. } | Target::Data { .. } => 1,
    }
}

// What came of the commands of a plan.
fn done_by(plan: Plan, sent: Result<(), Failure>) -> Result<Plan, Stop>
    ensures { result ≡ done_by plan sent }
{
    match sent {
        Ok(()) => Ok(plan),
        Err(failure) => Err(Stop::Sending(failure)),
    }
}

// Sends what a plan needs, and says whether all up to Clear was accepted.
fn follow<'a, P: Port, S: Source<'a>>(
    port: &mut P,
    connection: &mut Connection,
    target: Target,
    source: S,
    plan: Plan,
) -> (Result<(), Failure>, bool)
    ensures { Follows P.exchanged target port.old connection.old.counter (S.records source) plan
        result.0 result.1 port.new connection.new.counter }
{
    match prepare(port, connection, target, plan.mask) {
        Err(failure) => (Err(failure), false),
        Ok(()) => (close(port, connection, target, source, plan), true),
    }
}

// Sends what follows on Clear.
#[tactic(auto, using(session::specs::Joining::delivered_append, session::specs::Joining::stops_append, session::specs::Joining::stops_front))]
fn close<'a, P: Port, S: Source<'a>>(
    port: &mut P,
    connection: &mut Connection,
    target: Target,
    source: S,
    plan: Plan,
) -> Result<(), Failure>
    ensures { SentAll P.exchanged port.old connection.old.counter
        (closing target plan (S.records source)) result port.new connection.new.counter }
{
    send_records(port, connection, space_at(target).extension(), source)?;
    connection.send(
        port,
        Command::BuildChecksum {
            size: 0,
            crc: plan.image_crc,
        },
    )?;
    Ok(())
}

// Ends a connection: Disconnect is sent, but where the board was silent the connection is given
// up. Says whether Disconnect was acknowledged.
fn end<P: Port>(
    port: &mut P,
    connection: Connection,
    target: Target,
    done: Result<Plan, Stop>,
) -> bool
    ensures { Ends P.exchanged target port.old connection.counter done result port.new }
{
    match done {
        Ok(_) | Err(Stop::NoRow | Stop::Outside { .. } | Stop::Sending(Failure::Refused { .. })) =>
            { connection.disconnect(port) }
        Err(Stop::Sending(Failure::Silent { .. })) => {
            connection.abandon();
            false
        }
    }
}
