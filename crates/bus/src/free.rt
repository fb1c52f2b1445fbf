// Free: the Target lets the bus go.
ghost use Rattle.std.specs.Prelude.{◌≡◌};
ghost use Rattle.chip.specs.Events.{bus_free, freed, freed_running, idle_free};

use answers::says;
use chip::{Answer, Connection, Handshake, Reply, State};
use state::activity;

#[tactic(auto, unfolding(chip::specs::Events::bus_free))]
fn bus_free(mut s: State) -> State
    ensures { result ≡ bus_free s }
{
    s.wire.handshake = Handshake {
        atn: false,
        ack: false,
    };
    s.wire.connection = Connection::Disconnected;
    s
}

#[tactic(auto, unfolding(chip::specs::Events::idle_free, chip::specs::Interrupts::unless_interrupt, chip::specs::Choice::pick))]
fn idle_free(s: State) -> Reply
    ensures { result ≡ idle_free s }
{
    if interrupts::interrupted(s) {
        return says(Answer::Held, s);
    }
    says(Answer::Done(0), interrupts::raise(0x85, bus_free(s)))
}

#[tactic(auto, unfolding(chip::specs::Events::freed_running, chip::specs::Choice::pick))]
fn freed_running(s: State) -> Reply
    ensures { result ≡ freed_running s }
{
    if activity::is_select_and_transfer(s) {
        return select_and_transfer::free::freed(s, bus_free(s));
    }
    if activity::is_transfer_info(s) {
        return transfer_info::free(s, bus_free(s));
    }
    idle_free(s)
}

#[tactic(auto, unfolding(chip::specs::Events::freed, chip::specs::Choice::pick))]
pub fn freed(s: State) -> Reply
    ensures { result ≡ freed s }
{
    if s.wire.connection != Connection::Connected {
        return says(Answer::OutOfPlace, s);
    }
    if interrupts::in_ending(s) {
        return says(Answer::Held, s);
    }
    freed_running(s)
}
