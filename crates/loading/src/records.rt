// Sending all records of a source.
ghost use Rattle.std.specs.Prelude.{◌≡◌};
ghost use Rattle.loading.specs.Record.{commands_for, send_one as one_of};
ghost use Rattle.session.specs.Session.{SentAll};
ghost use Rattle.loading.specs.Source.{record_by};

use crate::record::send_record;
use crate::source::Source;
use link::Port;
use session::{Connection, Failure};
use srecord::Record;

// Sends a record, if it has data.
fn send_one<P: Port>(
    port: &mut P,
    connection: &mut Connection,
    extension: u8,
    record: Record<'_>,
) -> Result<(), Failure>
    ensures { SentAll P.exchanged port.old connection.old.counter
        (one_of extension (record_by «record».entry)) result port.new connection.new.counter }
{
    let Some(bytes) = record.bytes() else {
        return Ok(());
    };
    if bytes.as_slice().is_empty() {
        return Ok(());
    }
    send_record(
        port,
        connection,
        extension,
        record.address,
        bytes.as_slice(),
    )
}

// Sends the records that are to come of a source, up to its end or its fault.
pub fn send_records<'a, P: Port, S: Source<'a>>(
    port: &mut P,
    connection: &mut Connection,
    extension: u8,
    source: S,
) -> Result<(), Failure>
    ensures { SentAll P.exchanged port.old connection.old.counter
        (commands_for extension (S.records source)) result port.new connection.new.counter }
{
    let mut source = source;
    while let Some(record) = source.next_record() {
        send_one(port, connection, extension, record)?;
    }
    Ok(())
}
