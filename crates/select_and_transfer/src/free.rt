// What a Free does to a Select-And-Transfer. t is s with the bus free.
ghost use Rattle.std.specs.Prelude.{◌≡◌};
ghost use Rattle.chip.specs.SelectAndTransfer.{free_after_disconnect, select_and_transfer_free};

use answers::says;
use chip::{Answer, Connection, Reply, State};
use state::activity;

#[tactic(auto, unfolding(chip::specs::SelectAndTransfer::free_after_disconnect, chip::specs::SelectAndTransfer::free_to_wait, chip::specs::Choice::pick))]
fn free_after_disconnect(s: State, mut t: State) -> Reply
    ensures { result ≡ free_after_disconnect s t }
{
    if lines::idi(s) {
        t = interrupts::ending_with(0x85, t);
    } else if interrupts::bytes_unread(s) {
        t.activity = activity::reads_out(s.activity);
    } else {
        t.wire.connection = Connection::Waiting;
    }
    says(Answer::Done(0), t)
}

#[tactic(auto, unfolding(chip::specs::SelectAndTransfer::select_and_transfer_free, chip::specs::Choice::pick))]
pub fn freed(s: State, mut t: State) -> Reply
    ensures { result ≡ select_and_transfer_free s t }
{
    if s.registers.descriptor.phase == 0x42 {
        t.registers.descriptor.phase = 0x43;
        return free_after_disconnect(s, t);
    }
    says(Answer::Done(0), interrupts::ending_with(0x41, t))
}
