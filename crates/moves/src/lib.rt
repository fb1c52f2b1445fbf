// Which calls move a byte and do nothing else, so that only some bytes of the image need be stored: the tests of chip's
// specs/Moves.antt. What each call then comes to is in chip's proofs/Moves.antt.
#![tactic(auto)]

ghost use Rattle.std.specs.Prelude.{eqb, not, ◌≡◌};
ghost use Rattle.chip.specs.Activity.{is_select_and_transfer, is_transfer_info};
ghost use Rattle.chip.specs.Choice.{both, pick};
ghost use Rattle.chip.specs.Fifo.{has_room, is_empty};
ghost use Rattle.chip.specs.Moves.{is_body, is_plain, is_under_way, reads_data, sends_data, takes_data, writes_data};
ghost use Rattle.chip.specs.Phases.{is_noted};
ghost use Rattle.chip.specs.SelectAndTransfer.{stage};

use bus::request;
use chip::{Direction, Phase, Stage, State};
use select_and_transfer::stage;
use state::activity;

// The next register access is one of 00 to 16h, in reach.
#[tactic(auto, unfolding(chip::specs::Moves::is_plain, chip::specs::Choice::both))]
pub fn is_plain(s: State) -> bool
    ensures { result ≡ is_plain s }
{
    s.status.pointer < 0x17 && !interrupts::busy(s)
}

// The next register access is one of the Data register.
pub fn is_at_data(s: State) -> bool
    ensures { result ≡ eqb s.status.pointer 0x19 }
{
    s.status.pointer == 0x19
}

// A read of the Data register takes a byte.
#[tactic(auto, unfolding(chip::specs::Moves::reads_data, chip::specs::Choice::both))]
pub fn reads_data(s: State) -> bool
    ensures { result ≡ reads_data s }
{
    is_at_data(s) && interrupts::bytes_unread(s)
}

// A write to the Data register is taken.
#[tactic(auto, unfolding(chip::specs::Moves::writes_data, chip::specs::Choice::both))]
pub fn writes_data(s: State) -> bool
    ensures { result ≡ writes_data s }
{
    is_at_data(s) && s.transfer.direction == Direction::Out && count::dbr(s)
}

// A Request comes to the running command, the low byte of the count can be lowered, and the byte that crosses is not the last.
#[tactic(auto, unfolding(chip::specs::Moves::is_under_way, chip::specs::Choice::both, chip::specs::Choice::pick))]
fn is_under_way(s: State) -> bool
    ensures { result ≡ is_under_way s }
{
    request::is_served(s) && !s.transfer.single && 2 <= s.registers.count % 256
}

// The running command moves data: a Select-And-Transfer that expects data, where its direction is fixed that way, or a Transfer Info in
// the phase p. takes_data and sends_data ask it for one way each, under the names of chip's definitions.
#[tactic(auto, unfolding(chip::specs::Choice::both, chip::specs::Choice::pick))]
fn carries(fixed: bool, p: Phase, s: State) -> bool
    ensures { result ≡ pick (is_select_and_transfer s.activity) (both fixed (is_body (stage s)))
        (both (is_transfer_info s.activity) (is_noted p s.wire.seen.reported)) }
{
    if activity::is_select_and_transfer(s) {
        fixed && matches!(stage::stage(s), Stage::Body)
    } else {
        activity::is_transfer_info(s) && transfer_info::is_reported(p, s)
    }
}

// Whether the FIFO has room, or a byte, as the entries of controller ask it of a state; docs/ARCHITECTURE.md names has_room.
pub fn has_room(s: State) -> bool
    ensures { result ≡ has_room s.fifo }
{
    fifo::has_room(s.fifo)
}

pub fn has_byte(s: State) -> bool
    ensures { result ≡ not (is_empty s.fifo) }
{
    !fifo::is_empty(s.fifo)
}

// A Request of Data In with good parity is taken into the FIFO, or Held where that is full, and nothing ends.
#[tactic(auto, unfolding(chip::specs::Moves::takes_data, chip::specs::Moves::carries_in, chip::specs::Choice::both))]
pub fn takes_data(s: State) -> bool
    ensures { result ≡ takes_data s }
{
    is_under_way(s) && carries(s.transfer.direction == Direction::In, Phase::DataIn, s)
}

// A Request of Data Out takes a byte from the FIFO, or is Held where that is empty, and nothing ends.
#[tactic(auto, unfolding(chip::specs::Moves::sends_data, chip::specs::Moves::carries_out, chip::specs::Choice::both))]
pub fn sends_data(s: State) -> bool
    ensures { result ≡ sends_data s }
{
    is_under_way(s) && carries(s.transfer.direction == Direction::Out, Phase::DataOut, s)
}
