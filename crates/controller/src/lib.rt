// The entries: an image comes in, one call is made on its state, the image goes out. Nothing is required of the caller's numbers
// or bytes: an image of another length, bytes that are no state's image and operands out of range are Bad number, with every lent
// byte as it was. Room controller_c gives them their C names; include/am33c93a.h is the C side.
#![tactic(auto)]

mod calls; // calls.rt: the calls as C makes them
mod driven; // driven.rt: what a board drives on the bus
mod in_place; // in_place.rt: the calls on the lent bytes
mod operands; // operands.rt: the tests of what C passes

ghost use Rattle.chip.specs.Calls as Calls;
ghost use Rattle.chip.specs.Entries.{entered, fresh_entered, lines_entered};
ghost use Rattle.chip.specs.Image.{image_length};
ghost use Rattle.controller.specs.Enters.{told};
ghost use Rattle.std.specs.Prelude.{◌≡◌};

use chip::Answer;
use operands::BadNumber;
use state::fresh;

// What C is told where a call is Bad number, too.
fn told(number: Result<u32, BadNumber>) -> u32
    ensures { result ≡ told number }
{
    number.unwrap_or(answers::result(Answer::BadNumber))
}

pub fn am33c93a_image_length() -> u32
    ensures { result ≡ image_length }
{
    image::LENGTH as u32
}

#[tactic(auto, unfolding(chip::specs::Entries::fresh_entered, chip::specs::Choice::pick))]
pub fn am33c93a_fresh(image: &mut [u8]) -> u32
    ensures { (result ≡ (fresh_entered image.old).result) × (image.new ≡ (fresh_entered image.old).image) }
{
    if image.len() != image::LENGTH {
        return answers::result(Answer::BadNumber);
    }
    image::write(fresh::fresh(), image);
    answers::result(Answer::Done(0))
}

pub fn am33c93a_pointer(image: &mut [u8], mark: u32, byte: u32) -> u32
    ensures { (result ≡ (entered (Calls.pointer mark byte) image.old).result)
        × (image.new ≡ (entered (Calls.pointer mark byte) image.old).image) }
{
    told(calls::pointer(image, mark, byte))
}

pub fn am33c93a_auxiliary(image: &mut [u8]) -> u32
    ensures { (result ≡ (entered Calls.auxiliary image.old).result)
        × (image.new ≡ (entered Calls.auxiliary image.old).image) }
{
    told(calls::auxiliary(image))
}

pub fn am33c93a_register(image: &mut [u8], mark: u32, byte: u32) -> u32
    ensures { (result ≡ (entered (Calls.register mark byte) image.old).result)
        × (image.new ≡ (entered (Calls.register mark byte) image.old).image) }
{
    told(calls::register(image, mark, byte))
}

pub fn am33c93a_block(image: &mut [u8], mark: u32, bytes: &mut [u8]) -> u32
    ensures { (result ≡ (entered (Calls.block mark bytes.old) image.old).result)
        × (image.new ≡ (entered (Calls.block mark bytes.old) image.old).image)
        × (bytes.new ≡ (entered (Calls.block mark bytes.old) image.old).lent) }
{
    told(calls::block(image, mark, bytes))
}

pub fn am33c93a_time(image: &mut [u8], units: u32) -> u32
    ensures { (result ≡ (entered (Calls.time units) image.old).result)
        × (image.new ≡ (entered (Calls.time units) image.old).image) }
{
    told(calls::time(image, units))
}

pub fn am33c93a_answer(image: &mut [u8]) -> u32
    ensures { (result ≡ (entered Calls.answer image.old).result)
        × (image.new ≡ (entered Calls.answer image.old).image) }
{
    told(calls::answer(image))
}

pub fn am33c93a_reselection(image: &mut [u8], lines: u32) -> u32
    ensures { (result ≡ (entered (Calls.reselection lines) image.old).result)
        × (image.new ≡ (entered (Calls.reselection lines) image.old).image) }
{
    told(calls::reselection(image, lines))
}

pub fn am33c93a_request(image: &mut [u8], phase: u32, byte: u32, parity: u32) -> u32
    ensures { (result ≡ (entered (Calls.request phase byte parity) image.old).result)
        × (image.new ≡ (entered (Calls.request phase byte parity) image.old).image) }
{
    told(calls::request(image, phase, byte, parity))
}

pub fn am33c93a_free(image: &mut [u8]) -> u32
    ensures { (result ≡ (entered Calls.free image.old).result)
        × (image.new ≡ (entered Calls.free image.old).image) }
{
    told(calls::free(image))
}

// The lines are up to eleven bits, more than an Answer carries.
#[tactic(auto, unfolding(chip::specs::Entries::lines_entered, image::specs::Read::read_of, chip::specs::Choice::pick))]
pub fn am33c93a_lines(image: &[u8]) -> u32
    ensures { result ≡ lines_entered image.now }
{
    match image::read(image) {
        Some(s) => driven::line_result(s),
        None => answers::result(Answer::BadNumber),
    }
}
