// The image of a state, read and written: what every C entry does first and last.
#![tactic(auto)]

mod cases; // cases.rt: the bytes that stand for cases
mod parts; // parts.rt: the parts of a state, out of an image and into it
pub mod store; // store.rt: one field's change, made in the image itself
pub mod waiting; // waiting.rt: the FIFO's bytes, moved in the image itself

ghost use Rattle.std.specs.Prelude.{◌≡◌, eqb, ◌++◌, length, take, drop, true};
ghost use Rattle.chip.specs.Fifo.{ends_over, Goes};
ghost use Rattle.chip.specs.Choice.{pick};
ghost use Rattle.chip.specs.State.{fresh};
ghost use Rattle.chip.specs.Activity.{go_with, is_activity};
ghost use Rattle.chip.specs.Image.{fifo_place, image_length, is_image, image_of, state_of};
ghost use Rattle.image.specs.IsImage.{IsImage};
ghost use Rattle.image.specs.Read.{read_of};

use chip::State;
use fifo::part;
use parts::{Bytes, put_image, put_others};
use state::{activity, connections, fresh};

// How many bytes an image has.
pub const LENGTH: usize = 54;

// Where the FIFO's bytes begin.
const FIFO: usize = 40;

// What is pending goes with the command that runs. Mostly nothing is, so that is asked first. The three numbers are bytes 28, 29 and 31: a
// struct for them would be made in one line and taken apart in the next.
#[tactic(auto, unfolding(chip::specs::Activity::go_with, chip::specs::Choice::pick, chip::specs::Choice::both, chip::specs::Choice::either))]
fn go_with(p: u8, k: u8, n: u8) -> bool
    ensures { result ≡ go_with p k n }
{
    if p == 0 {
        k == 0
    } else if n == 0 {
        (p == 1) & (k == 0)
    } else {
        (p == 2) | ((p == 3) & (k == 0))
    }
}

// The three bytes that say the activity.
#[tactic(auto, unfolding(chip::specs::Activity::is_activity, chip::specs::Choice::pick, chip::specs::Choice::both, chip::specs::Choice::either))]
fn is_activity(p: u8, k: u8, n: u8) -> bool
    ensures { result ≡ is_activity p k n }
{
    (n < activity::COMMANDS) & go_with(p, k, n)
}

// Whether the bytes are a state's image; what then holds of them is specs/IsImage.antt.
#[tactic(auto, unfolding(chip::specs::Image::is_image, chip::specs::Choice::both))]
pub fn is_image(image: &[u8]) -> bool
    ensures { (result ≡ is_image image.now) × (result ≡ true → IsImage image.now) }
{
    image.len() == LENGTH && Bytes { all: image }.has_form()
}

// The state of an image; none of other bytes.
#[tactic(auto, unfolding(crate::specs::Read::read_of, chip::specs::Image::is_image, chip::specs::Choice::pick, chip::specs::Choice::both))]
pub fn read(image: &[u8]) -> Option<State>
    ensures { result ≡ read_of image.now }
{
    if image.len() == LENGTH {
        let lent = Bytes { all: image };
        if lent.has_form() {
            return Some(lent.state());
        }
    }
    None
}

// The state that bytes say; the fresh one where their length is not an image's. Whether they are an image is not asked.
#[tactic(auto, unfolding(chip::specs::Choice::pick, chip::specs::Image::state_of))]
pub fn state(image: &[u8]) -> State
    ensures { result ≡ pick (eqb (length image.now) image_length) (state_of image.now) fresh }
{
    // An if as the value made the state and then copied it: ten instructions more in a register write, twenty in a call on the state.
    if image.len() != LENGTH {
        return fresh::fresh();
    }
    Bytes { all: image }.state()
}

// Bytes of another length than an image's stay as they are.
#[tactic(auto, unfolding(chip::specs::Choice::pick, chip::specs::Image::image_of))]
pub fn write(s: State, image: &mut [u8])
    ensures { image.new ≡ pick (eqb (length image.old) image_length) (image_of s) image.old }
{
    if image.len() == LENGTH {
        put_image(s, image);
    }
}

// The state that a step led to from the image's own, where it brought the FIFO one byte at most: of its places one is stored.
#[tactic(auto, unfolding(chip::specs::Choice::pick))]
pub fn write_on(s: State, image: &mut [u8])
    ensures stored { image.new ≡ pick (eqb (length image.old) image_length)
        (take fifo_place (image_of s) ++ ends_over s.fifo (drop fifo_place image.old)) image.old }
    ensures goes_on { IsImage image.old → Goes (state_of image.old).fifo s.fifo → image.new ≡ image_of s }
{
    if image.len() == LENGTH {
        put_others(s, image);
        store::ends(s.fifo, image);
    }
}
