// The calls as C makes them: each operand is tested, from left to right, and then the image.
#![tactic(auto, unfolding(chip::specs::Entries::entered, chip::specs::Calls::is_good, chip::specs::Calls::carried, chip::specs::Choice::pick, chip::specs::Choice::both))]

ghost use Rattle.std.specs.Prelude.{[]};
ghost use Rattle.chip.specs.Calls as Calls;
ghost use Rattle.controller.specs.Enters.{Enters};

use crate::in_place;
use crate::operands::{BadNumber, byte_of, mark_of, phase_of};
use chip::Request;

pub(crate) fn pointer(image: &mut [u8], mark: u32, byte: u32) -> Result<u32, BadNumber>
    ensures { Enters (Calls.pointer mark byte) result image.old image.new [] }
{
    in_place::pointer(mark_of(mark)?, byte_of(byte)?, image)
}

pub(crate) fn auxiliary(image: &mut [u8]) -> Result<u32, BadNumber>
    ensures { Enters Calls.auxiliary result image.old image.new [] }
{
    in_place::auxiliary(image)
}

pub(crate) fn register(image: &mut [u8], mark: u32, byte: u32) -> Result<u32, BadNumber>
    ensures { Enters (Calls.register mark byte) result image.old image.new [] }
{
    in_place::register(mark_of(mark)?, byte_of(byte)?, image)
}

pub(crate) fn block(image: &mut [u8], mark: u32, bytes: &mut [u8]) -> Result<u32, BadNumber>
    ensures { Enters (Calls.block mark bytes.old) result image.old image.new bytes.new }
{
    in_place::block(mark_of(mark)?, bytes, image)
}

pub(crate) fn time(image: &mut [u8], units: u32) -> Result<u32, BadNumber>
    ensures { Enters (Calls.time units) result image.old image.new [] }
{
    in_place::time(byte_of(units)?, image)
}

pub(crate) fn answer(image: &mut [u8]) -> Result<u32, BadNumber>
    ensures { Enters Calls.answer result image.old image.new [] }
{
    in_place::answer(image)
}

pub(crate) fn reselection(image: &mut [u8], lines: u32) -> Result<u32, BadNumber>
    ensures { Enters (Calls.reselection lines) result image.old image.new [] }
{
    in_place::reselection(byte_of(lines)?, image)
}

pub(crate) fn request(
    image: &mut [u8],
    phase: u32,
    byte: u32,
    parity: u32,
) -> Result<u32, BadNumber>
    ensures { Enters (Calls.request phase byte parity) result image.old image.new [] }
{
    let request = Request {
        phase: phase_of(phase)?,
        byte: byte_of(byte)?,
        bad: mark_of(parity)?,
    };
    in_place::request(request, image)
}

pub(crate) fn free(image: &mut [u8]) -> Result<u32, BadNumber>
    ensures { Enters Calls.free result image.old image.new [] }
{
    in_place::free(image)
}
