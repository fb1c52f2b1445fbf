// Reselection with the eight data lines.
ghost use Rattle.std.specs.Prelude.{◌≡◌};
ghost use Rattle.chip.specs.Events.{names_target, reselected, reselected_apart, reselected_state, reselected_with_code};

use crate::answer;
use answers::says;
use chip::{Answer, Connection, Reply, State};
use state::activity;

#[tactic(auto, unfolding(chip::specs::Events::reselected_state))]
fn reselected_state(data_lines: u8, mut s: State) -> State
    ensures { result ≡ reselected_state data_lines s }
{
    s.registers.source = lines::source_after(data_lines, s);
    answer::connected(s)
}

#[tactic(auto, unfolding(chip::specs::Events::reselected_with_code, chip::specs::Interrupts::unless_interrupt, chip::specs::Choice::pick))]
fn reselected_with_code(data_lines: u8, s: State) -> Reply
    ensures { result ≡ reselected_with_code data_lines s }
{
    if interrupts::interrupted(s) {
        return says(Answer::Held, s);
    }
    let t = reselected_state(data_lines, s);
    says(Answer::Done(0), interrupts::raise(0x80, t))
}

#[tactic(auto, unfolding(chip::specs::Events::names_target, chip::specs::Choice::both))]
fn names_target(data_lines: u8, s: State) -> bool
    ensures { result ≡ names_target data_lines s }
{
    activity::is_select_and_transfer(s)
        && lines::are_two(data_lines)
        && lines::same_identity(
            lines::other_identity(s.wire.identity, data_lines),
            lines::destination(s),
        )
}

// A waiting Select-And-Transfer that is called back by its Target goes on.
#[tactic(auto, unfolding(chip::specs::Events::reselected_apart, chip::specs::Choice::pick, chip::specs::Choice::both))]
fn reselected_apart(data_lines: u8, s: State) -> Reply
    ensures { result ≡ reselected_apart data_lines s }
{
    if interrupts::in_ending(s) {
        return says(Answer::Held, s);
    }
    if s.wire.connection == Connection::Waiting && names_target(data_lines, s) {
        let mut t = reselected_state(data_lines, s);
        t.registers.descriptor.phase = 0x44;
        return says(Answer::Done(0), t);
    }
    reselected_with_code(data_lines, s)
}

#[tactic(auto, unfolding(chip::specs::Events::reselected, chip::specs::Choice::pick))]
pub fn reselected(data_lines: u8, s: State) -> Reply
    ensures { result ≡ reselected data_lines s }
{
    if !lines::qualifies(data_lines, s) {
        return says(Answer::ReselectionIgnored, s);
    }
    if s.wire.connection == Connection::Connected {
        return says(Answer::OutOfPlace, s);
    }
    reselected_apart(data_lines, s)
}
