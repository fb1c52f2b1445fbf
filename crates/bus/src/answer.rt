// Answer: the Target takes the selection.
ghost use Rattle.std.specs.Prelude.{◌≡◌};
ghost use Rattle.chip.specs.Events.{answered, answered_elsewhere, answered_selecting, answered_state, connected};

use crate::time;
use answers::says;
use chip::{Answer, Connection, Reply, Seen, State};
use state::activity;

#[tactic(auto, unfolding(chip::specs::Events::connected))]
pub fn connected(mut s: State) -> State
    ensures { result ≡ connected s }
{
    s.wire.seen = Seen {
        reported: None,
        last: None,
    };
    s.wire.connection = Connection::Connected;
    s
}

#[tactic(auto, unfolding(chip::specs::Events::answered_state, chip::specs::Events::connected, chip::specs::Choice::either))]
fn answered_state(mut s: State) -> State
    ensures { result ≡ answered_state s }
{
    s.wire.handshake.atn = activity::sets_atn(s) || s.wire.handshake.atn;
    connected(s)
}

#[tactic(auto, unfolding(chip::specs::Events::answered_selecting, chip::specs::Choice::pick, chip::specs::Interrupts::unless_interrupt))]
fn answered_selecting(s: State) -> Reply
    ensures { result ≡ answered_selecting s }
{
    let mut t = answered_state(s);
    if activity::is_select_and_transfer(s) {
        t.registers.descriptor.phase = 0x10;
        return says(Answer::Done(0), t);
    }
    says(Answer::Done(0), interrupts::raise(0x11, t))
}

// No selection runs.
#[tactic(auto, unfolding(chip::specs::Events::answered_elsewhere, chip::specs::Choice::pick, chip::specs::Choice::both))]
fn answered_elsewhere(s: State) -> Reply
    ensures { result ≡ answered_elsewhere s }
{
    if s.wire.connection == Connection::Selecting && interrupts::in_ending(s) {
        return says(Answer::Held, s);
    }
    says(Answer::OutOfPlace, s)
}

#[tactic(auto, unfolding(chip::specs::Events::answered, chip::specs::Choice::pick))]
pub fn answered(s: State) -> Reply
    ensures { result ≡ answered s }
{
    if time::selects(s) {
        return answered_selecting(s);
    }
    answered_elsewhere(s)
}
