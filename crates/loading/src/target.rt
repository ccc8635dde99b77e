// What is sent to prepare a target: its memory is unlocked, its beginning selected, and units are cleared.
ghost use Rattle.std.specs.Prelude.{◌≡◌};
ghost use Rattle.bootloader.specs.declared.command.Command.TheVariants.{SetMta};
ghost use Rattle.bootloader.specs.Frames.{extension_of};
ghost use Rattle.session.specs.Session.{SentAll};
ghost use Rattle.loading.specs.Prepared.{preparing, space_at, password_of};

use bootloader::{Command, Space};
use link::Port;
use loader::Target;
use session::{Connection, Failure};

// The space of a target.
pub(crate) fn space_at(target: Target) -> Space
    ensures { result ≡ space_at target }
{
    match target {
        Target::Flash => Space::Flash,
        Target::Boot { .. } => Space::Boot,
        Target::Data { .. } => Space::Data,
    }
}

// The password of a space; the register has none, and is never a target.
fn password_of(space: Space) -> u16
    ensures { result ≡ password_of space }
{
    space.password().unwrap_or(0)
}

// Unlocks a target, selects its beginning, and clears the units of a mask.
#[tactic(auto, unfolding(crate::specs::Prepared::preparing))]
pub(crate) fn prepare<P: Port>(
    port: &mut P,
    connection: &mut Connection,
    target: Target,
    mask: u32,
) -> Result<(), Failure>
    ensures { SentAll P.exchanged port.old connection.old.counter
        (preparing (space_at target) mask) result port.new connection.new.counter }
{
    let space = space_at(target);
    connection.send_all(
        port,
        &[
            select(Space::Register, 0),
            Command::Unlock {
                size: 2,
                password: password_of(space),
            },
            select(space, 0),
            Command::Clear { mask },
        ],
    )
}

// The command that selects an address of a space.
pub(crate) fn select(space: Space, address: u32) -> Command
    ensures { result ≡ SetMta 0 (extension_of space) address }
{
    Command::SetMta {
        number: 0,
        extension: space.extension(),
        address,
    }
}
