// Interrupts and endings. Each function is the definition of the same name in chip's specs/Interrupts.antt.
#![tactic(auto)]

ghost use Rattle.std.specs.Prelude.{◌≡◌};
ghost use Rattle.chip.specs.Interrupts.{interrupted, in_ending, busy, interrupt, outgoing_dropped, raise, bytes_unread, ending_with, settled};

use chip::{Activity, Connection, Direction, State};
use state::activity;

// interrupted, in_ending and busy are questions of room state under the definitions' names here. A status code, k, is a number as in the
// definitions: a byte of register 17h, of which other rooms make each their own.
pub fn interrupted(s: State) -> bool
    ensures { result ≡ interrupted s }
{
    activity::is_interrupt(s)
}

pub fn in_ending(s: State) -> bool
    ensures { result ≡ in_ending s }
{
    activity::is_ending(s)
}

#[tactic(auto, unfolding(chip::specs::Interrupts::busy))]
pub fn busy(s: State) -> bool
    ensures { result ≡ busy s }
{
    activity::is_running(s)
}

pub fn interrupt(k: u8, mut s: State) -> State
    ensures { result ≡ interrupt k s }
{
    s.status.code = k;
    s.activity = Activity::Interrupt;
    s
}

#[tactic(auto, unfolding(chip::specs::Interrupts::outgoing_dropped))]
pub fn outgoing_dropped(mut s: State) -> State
    ensures { result ≡ outgoing_dropped s }
{
    if s.transfer.direction == Direction::Out {
        s.fifo = fifo::emptied(s.fifo);
        s.transfer.direction = Direction::Unfixed;
    }
    s
}

#[tactic(auto, unfolding(chip::specs::Interrupts::raise))]
pub fn raise(k: u8, s: State) -> State
    ensures { result ≡ raise k s }
{
    interrupt(k, outgoing_dropped(s))
}

#[tactic(auto, unfolding(chip::specs::Interrupts::bytes_unread, chip::specs::Choice::both))]
pub fn bytes_unread(s: State) -> bool
    ensures { result ≡ bytes_unread s }
{
    s.transfer.direction == Direction::In && !fifo::is_empty(s.fifo)
}

#[tactic(auto, unfolding(chip::specs::Interrupts::ending_with, chip::specs::Choice::pick))]
pub fn ending_with(k: u8, mut s: State) -> State
    ensures { result ≡ ending_with k s }
{
    if bytes_unread(s) {
        s.activity = activity::ends(k, s.activity);
        return s;
    }
    raise(k, s)
}

// What an ending comes to once the FIFO is read out.
#[tactic(auto, unfolding(chip::specs::Interrupts::settled, chip::specs::Interrupts::settled_by, chip::specs::Choice::pick))]
pub fn settled(mut s: State) -> State
    ensures { result ≡ settled s }
{
    if !fifo::is_empty(s.fifo) {
        return s;
    }
    match s.activity {
        Activity::Ends(_, k) => raise(k, s),
        Activity::ReadOut(r) => {
            s.activity = Activity::Runs(r);
            s.wire.connection = Connection::Waiting;
            s
        }
        _ => s,
    }
}
