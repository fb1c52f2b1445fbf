// What the phase register stands for, and the size of the command.
ghost use Rattle.std.specs.Prelude.{◌≡◌, ◌≤◌};
ghost use Rattle.select_and_transfer.specs.Sendable.{Sendable};
ghost use Rattle.chip.specs.SelectAndTransfer.{has_size, size, stage};

use chip::{Stage, State};
use state::activity;

// By the top three bits of CDB byte 1. A group that has no size gets 0, not None, as the definition says: no number of bytes taken is
// below 0, so that stage and has_size need no case for it.
#[tactic(auto, unfolding(chip::specs::SelectAndTransfer::size, chip::specs::SelectAndTransfer::size_of, chip::specs::Choice::pick))]
pub fn size(s: State) -> u8
    ensures { (result ≡ size s) × (result ≤ 12) }
{
    match s.registers.descriptor.cdb[0] >> 5 {
        0 => 6,
        1 => 10,
        5 => 12,
        _ => 0,
    }
}

#[tactic(auto, unfolding(chip::specs::SelectAndTransfer::has_size))]
pub fn has_size(s: State) -> bool
    ensures { result ≡ has_size s }
{
    0 < size(s)
}

// What the phase register of the running command stands for, while the command is sent and after. At 3xh x command bytes were taken.
// Two matches: one alone would be a table too long to stand in each caller, and a call would copy the state.
#[tactic(auto, unfolding(chip::specs::SelectAndTransfer::stage, chip::specs::SelectAndTransfer::stage_of, chip::specs::SelectAndTransfer::first_stage, chip::specs::SelectAndTransfer::next_stage, chip::specs::SelectAndTransfer::is_command_phase, chip::specs::Choice::pick, chip::specs::Choice::both))]
pub fn stage(s: State) -> Stage
    ensures { (result ≡ stage s) × Sendable result }
{
    let size = size(s);
    let phase = s.registers.descriptor.phase;
    if phase < 0x40 {
        match phase {
            0x10 if activity::sets_atn(s) => Stage::SendIdentify,
            0x10 | 0x20 | 0x30 if 0 < size => Stage::SendCommand(0),
            0x31..=0x3f if phase - 0x30 < size => Stage::SendCommand(phase - 0x30),
            0x31..=0x3f if phase - 0x30 == size => Stage::Body,
            _ => Stage::Elsewhere,
        }
    } else {
        match phase {
            0x41 | 0x45 => Stage::Body,
            0x42 => Stage::Disconnecting,
            0x44 => Stage::Reselected,
            0x46 => Stage::AfterData,
            0x50 => Stage::AfterStatus,
            _ => Stage::Elsewhere,
        }
    }
}
