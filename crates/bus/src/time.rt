// Time: units add up while selecting, to the timeout.
ghost use Rattle.std.specs.Prelude.{◌≡◌};
ghost use Rattle.chip.specs.Events.{passed, selection_time, selects, timed_out};

use answers::says;
use chip::{Answer, Connection, Reply, State};
use state::activity;

#[tactic(auto, unfolding(chip::specs::Events::timed_out))]
fn timed_out(mut s: State) -> State
    ensures { result ≡ timed_out s }
{
    s.wire.connection = Connection::Disconnected;
    interrupts::raise(0x42, s)
}

// A sum that is no byte has reached every timeout.
#[tactic(auto, unfolding(chip::specs::Events::selection_time, chip::specs::Choice::pick))]
fn selection_time(n: u8, mut s: State) -> Reply
    ensures { result ≡ selection_time n s }
{
    let timeout = s.registers.setup.timeout;
    if timeout == 0 {
        return says(Answer::Done(0), s);
    }
    match s.wire.elapsed.checked_add(n) {
        Some(sum) if sum < timeout => {
            s.wire.elapsed = sum;
            says(Answer::Done(0), s)
        }
        _ => says(Answer::Done(0), timed_out(s)),
    }
}

// A selection runs.
#[tactic(auto, unfolding(chip::specs::Events::selects, chip::specs::Choice::both))]
pub fn selects(s: State) -> bool
    ensures { result ≡ selects s }
{
    s.wire.connection == Connection::Selecting && activity::goes_on(s)
}

#[tactic(auto, unfolding(chip::specs::Events::passed, chip::specs::Choice::pick))]
pub fn passed(n: u8, s: State) -> Reply
    ensures { result ≡ passed n s }
{
    if selects(s) {
        return selection_time(n, s);
    }
    says(Answer::Done(0), s)
}
