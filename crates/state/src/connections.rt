// A connection by its number, which is `connection as u8` (chip's specs/Connections.antt). Rules ask by `==`.
ghost use Rattle.std.specs.Prelude.{◌≡◌};
ghost use Rattle.chip.specs.Connections.{connection_of};

use chip::Connection;

// How many there are.
pub const COUNT: u8 = 4;

// The connection of a number below COUNT. A TryFrom would refuse the others, of which this function says Connected, as its definition does.
#[tactic(auto, unfolding(chip::specs::Connections::connection_of, chip::specs::Choice::pick))]
pub fn connection_of(n: u8) -> Connection
    ensures { result ≡ connection_of n }
{
    match n {
        0 => Connection::Disconnected,
        1 => Connection::Selecting,
        2 => Connection::Waiting,
        _ => Connection::Connected,
    }
}
