// Sending a record.
ghost use Rattle.std.specs.Prelude.{◌≡◌, ◌≤◌, length};
ghost use Rattle.loading.specs.Record.{downloads, record_commands};
ghost use Rattle.session.specs.Session.{SentAll};

use bootloader::Command;
use link::Port;
use memory::{CRC_START, crc_over};
use session::{Connection, Failure};

// Downloads bytes: sixes, and then the rest.
fn download<P: Port>(port: &mut P, connection: &mut Connection, bytes: &[u8]) -> Result<(), Failure>
    ensures { SentAll P.exchanged port.old connection.old.counter
        (downloads bytes.now) result port.new connection.new.counter }
{
    let mut left = bytes;
    while let [a, b, c, d, e, f, rest @ ..] = left {
        connection.send(
            port,
            Command::DownloadSix {
                bytes: [*a, *b, *c, *d, *e, *f],
            },
        )?;
        left = rest;
    }
    download_rest(port, connection, left)
}

// The last bytes, if there are any, fewer than six.
fn download_rest<P: Port>(
    port: &mut P,
    connection: &mut Connection,
    left: &[u8],
) -> Result<(), Failure>
    requires { length left.now ≤ 5 }
    ensures { SentAll P.exchanged port.old connection.old.counter
        (downloads left.now) result port.new connection.new.counter }
{
    let (size, bytes) = match left {
        [a] => (1, [*a, 0, 0, 0, 0]),
        [a, b] => (2, [*a, *b, 0, 0, 0]),
        [a, b, c] => (3, [*a, *b, *c, 0, 0]),
        [a, b, c, d] => (4, [*a, *b, *c, *d, 0]),
        [a, b, c, d, e] => (5, [*a, *b, *c, *d, *e]),
        _ => return Ok(()),
    };
    connection.send(port, Command::Download { size, bytes })?;
    Ok(())
}

// Selects the place of a record, downloads it and has it programmed.
#[tactic(auto, using(session::specs::Joining::delivered_append, session::specs::Joining::stops_append, session::specs::Joining::stops_front))]
pub fn send_record<P: Port>(
    port: &mut P,
    connection: &mut Connection,
    extension: u8,
    address: u32,
    bytes: &[u8],
) -> Result<(), Failure>
    requires { length bytes.now ≤ 252 }
    ensures { SentAll P.exchanged port.old connection.old.counter
        (record_commands extension address bytes.now) result port.new connection.new.counter }
{
    connection.send(
        port,
        Command::SetMta {
            number: 0,
            extension,
            address,
        },
    )?;
    download(port, connection, bytes)?;
    connection.send(
        port,
        Command::BuildChecksum {
            size: bytes.len() as u32,
            crc: crc_over(CRC_START, bytes),
        },
    )?;
    Ok(())
}
