// Request: a phase, a byte and its parity.
ghost use Rattle.std.specs.Prelude.{◌≡◌};
ghost use Rattle.chip.specs.Events.{idle_request, is_served, remembered, requested, requested_connected, requested_running};

use answers::says;
use chip::{Answer, Connection, Phase, Reply, Request, State};
use state::activity;

#[tactic(auto, unfolding(chip::specs::Events::idle_request, chip::specs::Choice::pick, chip::specs::Interrupts::unless_interrupt))]
fn idle_request(p: Phase, mut s: State) -> Reply
    ensures { result ≡ idle_request p s }
{
    if transfer_info::is_reported(p, s) || interrupts::interrupted(s) {
        return says(Answer::Held, s);
    }
    s.wire.seen.reported = Some(p);
    says(
        Answer::Reported,
        interrupts::raise(phases::coded(0x88, p), s),
    )
}

#[tactic(auto, unfolding(chip::specs::Events::requested_running, chip::specs::Choice::pick))]
fn requested_running(request: Request, s: State) -> Reply
    ensures { result ≡ requested_running request.phase request.byte request.bad s }
{
    if activity::is_select_and_transfer(s) {
        return select_and_transfer::request(request, s);
    }
    if activity::is_transfer_info(s) {
        return transfer_info::request(request, s);
    }
    idle_request(request.phase, s)
}

#[tactic(auto, unfolding(chip::specs::Events::requested_connected, chip::specs::Choice::pick))]
fn requested_connected(request: Request, s: State) -> Reply
    ensures { result ≡ requested_connected request.phase request.byte request.bad s }
{
    if interrupts::in_ending(s) || s.wire.handshake.ack {
        return says(Answer::Held, s);
    }
    requested_running(request, s)
}

// A Request comes to the running command.
#[tactic(auto, unfolding(chip::specs::Events::is_served, chip::specs::Choice::both))]
pub fn is_served(s: State) -> bool
    ensures { result ≡ is_served s }
{
    s.wire.connection == Connection::Connected && activity::goes_on(s) && !s.wire.handshake.ack
}

// The phase of a Request that is answered Done or Reported is kept in mind, for a later Abort.
#[tactic(auto, unfolding(chip::specs::Events::remembered))]
fn remembered(p: Phase, mut r: Reply) -> Reply
    ensures { result ≡ remembered p r }
{
    if matches!(r.answer, Answer::Done(_) | Answer::Reported) {
        r.state.wire.seen.last = Some(p);
    }
    r
}

// "Connected only."
#[tactic(auto, unfolding(chip::specs::Events::requested, chip::specs::Events::remembered, chip::specs::Choice::pick))]
pub fn requested(request: Request, s: State) -> Reply
    ensures { result ≡ requested request.phase request.byte request.bad s }
{
    if s.wire.connection != Connection::Connected {
        return says(Answer::OutOfPlace, s);
    }
    remembered(request.phase, requested_connected(request, s))
}
