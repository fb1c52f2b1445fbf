// The bytes that stand for cases: for each type a function to the byte and one back. A flag and a direction are their numbers (`as u8`).
// A From may stand only in the crate of a type, chip; and every byte has a case here, where a TryFrom would refuse some.
ghost use Rattle.std.specs.Prelude.{◌≡◌};
ghost use Rattle.chip.specs.Image.{direction_of, noted_byte, noted_of};

use chip::{Direction, Phase};

#[tactic(auto, unfolding(chip::specs::Image::direction_of, chip::specs::Choice::pick))]
pub(crate) fn direction_of(n: u8) -> Direction
    ensures { result ≡ direction_of n }
{
    match n {
        0 => Direction::Unfixed,
        1 => Direction::In,
        _ => Direction::Out,
    }
}

pub(crate) fn noted_byte(p: Option<Phase>) -> u8
    ensures { result ≡ noted_byte p }
{
    match p {
        None => 0,
        Some(phase) => phase as u8 + 1,
    }
}

#[tactic(auto, unfolding(chip::specs::Image::noted_of, chip::specs::Choice::pick))]
pub(crate) fn noted_of(n: u8) -> Option<Phase>
    ensures { result ≡ noted_of n }
{
    match n {
        0 => None,
        _ => Some(phases::phase_of(n - 1)),
    }
}
