// What each command does. A status code is a number, as in the definitions: a byte of register 17h.
ghost use Rattle.std.specs.Prelude.{◌≡◌};
ghost use Rattle.chip.specs.Commands.{aborted, disconnected, transfer_info_begun, reset, selecting, select_and_transfer_begun, way_of};

use chip::{Activity, Command, Connection, Direction, Phase, State, Status};
use select_and_transfer::resume;
use state::fresh;

#[tactic(auto, unfolding(chip::specs::Commands::reset, chip::specs::Commands::reset_code))]
pub fn reset(b: u8, s: State) -> State
    ensures { result ≡ reset b s }
{
    let own = s.registers.setup.own;
    State {
        registers: fresh::cleared(own),
        status: Status {
            code: 0x00,
            command: b,
            lci: false,
            pe: false,
            ..s.status
        },
        fifo: fifo::empty(),
        transfer: fresh::nothing_moves(),
        wire: fresh::apart(lines::own_identity(own)),
        activity: Activity::Interrupt,
    }
}

#[tactic(auto, unfolding(chip::specs::Commands::aborted, chip::specs::Choice::pick))]
pub fn aborted(mut s: State) -> State
    ensures { result ≡ aborted s }
{
    if s.wire.connection == Connection::Connected {
        let phase = s.wire.seen.last.unwrap_or(Phase::MessageOut);
        s.wire.seen.reported = Some(phase);
        return interrupts::ending_with(phases::coded(0x28, phase), s);
    }
    s.wire.connection = Connection::Disconnected;
    interrupts::raise(0x22, s)
}

#[tactic(auto, unfolding(chip::specs::Commands::disconnected))]
pub fn disconnected(mut s: State) -> State
    ensures { result ≡ disconnected s }
{
    s.fifo = fifo::empty();
    s.transfer.direction = Direction::Unfixed;
    s.activity = Activity::Idle;
    s.wire.handshake.ack = false;
    s.wire.handshake.atn = false;
    s.wire.connection = Connection::Disconnected;
    s
}

#[tactic(auto, unfolding(chip::specs::Commands::selecting))]
pub fn selecting(r: Command, mut s: State) -> State
    ensures { result ≡ selecting r s }
{
    s.wire.elapsed = 0;
    s.wire.connection = Connection::Selecting;
    s.activity = Activity::Runs(r);
    s
}

#[tactic(auto, unfolding(chip::specs::Commands::select_and_transfer_begun, chip::specs::Choice::pick))]
pub fn select_and_transfer_begun(r: Command, s: State) -> State
    ensures { result ≡ select_and_transfer_begun r s }
{
    if s.wire.connection == Connection::Connected {
        return resume::resumed(r, s);
    }
    selecting(r, resume::from_disconnected(s))
}

#[tactic(auto, unfolding(chip::specs::Choice::pick))]
fn way_of(n: Option<Phase>) -> Direction
    ensures { result ≡ way_of n }
{
    match n {
        None => Direction::Unfixed,
        Some(p) if phases::comes_in(p) => Direction::In,
        Some(_) => Direction::Out,
    }
}

#[tactic(auto, unfolding(chip::specs::Commands::transfer_info_begun))]
pub fn transfer_info_begun(single: bool, s: State) -> State
    ensures { result ≡ transfer_info_begun single s }
{
    let mut t = count::loaded_for_transfer_info(single, s);
    t.transfer.direction = way_of(s.wire.seen.reported);
    t.activity = Activity::Runs(Command::TransferInfo);
    t
}
