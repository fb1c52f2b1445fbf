// The eight phases, and the codes that carry one. Each function is the definition of the same name in chip's specs/Phases.antt.
// A phase's number is `phase as u8`, and two phases are compared by `==`.
#![tactic(auto)]

ghost use Rattle.std.specs.Prelude.{◌≡◌, ◌+◌, ◌≤◌};
ghost use Rattle.chip.specs.Phases.{phase_number, phase_of, comes_in};

use chip::Phase;

pub fn comes_in(p: Phase) -> bool
    ensures { result ≡ comes_in p }
{
    matches!(
        p,
        Phase::DataIn | Phase::StatusIn | Phase::UnspecifiedIn | Phase::MessageIn
    )
}

// The phase of a number from 0 to 7. A TryFrom would refuse the others, of which this function says Message In, as its definition does.
#[tactic(auto, unfolding(chip::specs::Phases::phase_of, chip::specs::Choice::pick))]
pub fn phase_of(p: u8) -> Phase
    ensures { result ≡ phase_of p }
{
    match p {
        0 => Phase::DataOut,
        1 => Phase::DataIn,
        2 => Phase::CommandOut,
        3 => Phase::StatusIn,
        4 => Phase::UnspecifiedOut,
        5 => Phase::UnspecifiedIn,
        6 => Phase::MessageOut,
        _ => Phase::MessageIn,
    }
}

// A code that carries a phase: 18h+p (Transfer Info is over, all bytes crossed), 28h+p (aborted), 48h+p (unexpected) and 88h+p
// (asked for, connected and idle). The base is a number, as in the definitions, which add it.
pub fn coded(base: u8, p: Phase) -> u8
    requires { base ≤ 0x88 }
    ensures { result ≡ base + phase_number p }
{
    base + p as u8
}
