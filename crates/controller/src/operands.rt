// The tests of what C passes: each gives the value, and that of the image none, or says that the call is Bad number.
#![tactic(auto, unfolding(chip::specs::Choice::pick))]

ghost use Rattle.std.specs.Prelude.{◌≡◌, OnOk};
ghost use Rattle.chip.specs.Calls.{is_bus_phase, is_byte, is_mark, is_set};
ghost use Rattle.chip.specs.Image.{is_image};
ghost use Rattle.chip.specs.Phases.{phase_of};
ghost use Rattle.controller.specs.Operands.{tested};
ghost use Rattle.image.specs.IsImage.{IsImage};

use chip::Phase;

// What makes a call Bad number: bytes that are no state's image, or an operand out of its range. C is told the two alike.
#[derive(Clone, Copy, PartialEq, Eq, Drop)]
pub(crate) enum BadNumber {
    Image,
    Operand,
}

pub(crate) fn byte_of(number: u32) -> Result<u8, BadNumber>
    ensures { result ≡ tested BadNumber.Operand (is_byte number) number }
{
    // Not u8::try_from: it goes by a flag and a number of 64 bits as one result, laid out as x86-64 does, and an i686 runs the module too.
    if number < 256 {
        Ok(number as u8)
    } else {
        Err(BadNumber::Operand)
    }
}

// A mark: 1 writes, 0 reads. A parity: 1 is bad, 0 is good.
pub(crate) fn mark_of(number: u32) -> Result<bool, BadNumber>
    ensures { result ≡ tested BadNumber.Operand (is_mark number) (is_set number) }
{
    if number < 2 {
        Ok(number == 1)
    } else {
        Err(BadNumber::Operand)
    }
}

pub(crate) fn phase_of(number: u32) -> Result<Phase, BadNumber>
    ensures { result ≡ tested BadNumber.Operand (is_bus_phase number) (phase_of number) }
{
    if number < 8 {
        Ok(phases::phase_of(number as u8))
    } else {
        Err(BadNumber::Operand)
    }
}

// That the bytes are a state's image. The state is not given along: not every call asks for it, and inside a Result it is copied twice.
pub(crate) fn test_image(image: &[u8]) -> Result<(), BadNumber>
    ensures { (result ≡ tested BadNumber.Image (is_image image.now) tt) × OnOk result (IsImage image.now) }
{
    if image::is_image(image) {
        Ok(())
    } else {
        Err(BadNumber::Image)
    }
}
