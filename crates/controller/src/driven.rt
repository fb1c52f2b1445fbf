// What a board drives on the bus.
ghost use Rattle.std.specs.Prelude.{◌≡◌, ◌*◌};
ghost use Rattle.chip.specs.Entries.{line_bits};

use chip::{Connection, State};

// The value of am33c93a_lines, 256 times over: Done stands in its low byte.
#[tactic(auto, unfolding(chip::specs::Entries::line_bits, chip::specs::Entries::connection_bits))]
pub fn line_result(s: State) -> u32
    ensures { result ≡ 256 * line_bits s }
{
    let connected = 8 * ((s.wire.connection == Connection::Connected) as u32);
    let selecting = 16 * ((s.wire.connection == Connection::Selecting) as u32);
    let waiting = 32 * ((s.wire.connection == Connection::Waiting) as u32);
    let atn = 64 * (s.wire.handshake.atn as u32);
    let ack = 128 * (s.wire.handshake.ack as u32);
    let own = 256 * (s.wire.identity.number as u32);
    256 * ((lines::destination(s).number as u32)
        + (connected + selecting + waiting)
        + atn
        + ack
        + own)
}
