// How a Select-And-Transfer begins, from Disconnected or as a resume. The phase register is written and asked by its numbers: a Stage says
// what is expected next, and several numbers have one.
ghost use Rattle.std.specs.Prelude.{◌≡◌};
ghost use Rattle.chip.specs.SelectAndTransfer.{from_disconnected, is_resumable, resumed};

use crate::stage;
use chip::{Activity, Command, State};

#[tactic(auto, unfolding(chip::specs::SelectAndTransfer::from_disconnected))]
pub fn from_disconnected(s: State) -> State
    ensures { result ≡ from_disconnected s }
{
    let mut t = count::loaded(s);
    t.registers.descriptor.phase = 0x00;
    t
}

// Where the command is still to be sent, its size counts.
#[tactic(auto, unfolding(chip::specs::SelectAndTransfer::is_resumable, chip::specs::SelectAndTransfer::is_early, chip::specs::SelectAndTransfer::is_middle, chip::specs::SelectAndTransfer::is_at_end, chip::specs::Choice::pick, chip::specs::Choice::either))]
pub fn is_resumable(s: State) -> bool
    ensures { result ≡ is_resumable s }
{
    match s.registers.descriptor.phase {
        0x10 | 0x20 | 0x30 => stage::has_size(s),
        0x41 | 0x42 | 0x44 | 0x45 | 0x46 | 0x50 | 0x60 => true,
        _ => false,
    }
}

// ACK is let go except at 46h.
#[tactic(auto, unfolding(chip::specs::SelectAndTransfer::resumed, chip::specs::SelectAndTransfer::ack_after_resume, chip::specs::Choice::pick, chip::specs::Choice::both))]
pub fn resumed(r: Command, s: State) -> State
    ensures { result ≡ resumed r s }
{
    let phase = s.registers.descriptor.phase;
    let mut t = count::loaded(s);
    t.activity = Activity::Runs(r);
    t.wire.handshake.ack = phase == 0x46 && s.wire.handshake.ack;
    if phase == 0x60 {
        t.wire.seen.reported = None;
        t = interrupts::ending_with(0x16, t);
    }
    t
}
