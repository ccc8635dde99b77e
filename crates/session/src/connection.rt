// A connection to a bootloader: the token of a session that was opened, and the commands that are sent in it.
ghost use Rattle.std.specs.Prelude.{◌≡◌, IfOk, IfErr, Err};
ghost use Rattle.bootloader.specs.Frames.{frame_of};
ghost use Rattle.session.specs.Session.{opening, next, Accepts, Sent, SentAll, Disconnects};

use crate::asking::send;
use crate::failure::Failure;
use bootloader::Command;
use link::Port;

// It is made by an acknowledged Connect and spent by `disconnect` or by `abandon`. It has no bounds: code that lets one
// fall, or sends through one that was ended, does not compile.
pub struct Connection {
    // of the next frame
    counter: u8,
}

// Opens a connection, and gives the reply to Connect with it. Where that fails, there is no connection to end.
pub fn connect<P: Port>(port: &mut P) -> Result<(Connection, [u8; 8]), Failure>
    ensures opened { IfOk result (λ made. Accepts P.exchanged port.old opening made.1 port.new) }
    ensures counter { IfOk result (λ made. made.0.counter ≡ 1) }
    ensures failed { IfErr result (λ why. Sent P.exchanged port.old opening (Err why) port.new) }
{
    let reply = send(port, &Command::Connect.frame(0))?;
    Ok((Connection { counter: 1 }, reply))
}

impl Connection {
    // Sends a command under the next counter, and gives the reply if it accepts the command. The connection lasts, also where
    // that fails.
    pub fn send<P: Port>(&mut self, port: &mut P, command: Command) -> Result<[u8; 8], Failure>
        ensures sent { Sent P.exchanged port.old (frame_of self.old.counter command)
            result port.new }
        ensures counter { self.new.counter ≡ next self.old.counter }
    {
        let frame = command.frame(self.counter);
        self.counter = self.counter.wrapping_add(1);
        send(port, &frame)
    }

    // Sends commands one after the other, until one fails.
    pub fn send_all<P: Port>(&mut self, port: &mut P, commands: &[Command]) -> Result<(), Failure>
        ensures sent { SentAll P.exchanged port.old self.old.counter commands.now
            result port.new self.new.counter }
    {
        for command in commands {
            self.send(port, *command)?;
        }
        Ok(())
    }

    // Ends the connection by a Disconnect, and says whether that was acknowledged. A board whose flash is sealed then starts
    // its application.
    pub fn disconnect<P: Port>(self, port: &mut P) -> bool
        ensures answer { Disconnects P.exchanged port.old self.counter result port.new }
    {
        let Connection { counter } = self;
        send(port, &Command::Disconnect { kind: 1 }.frame(counter)).is_ok()
    }

    // Gives the connection up: nothing more is sent. It is for a board that is silent.
    pub fn abandon(self) {
        let Connection { counter: _ } = self;
    }
}
