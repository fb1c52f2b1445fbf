// The waiting bytes, in the image itself: only the FIFO's part is looked at, and of it only the byte that moves and the ends are stored
// (room fifo). Bytes of another length than an image's hold no byte, and stay as they are (specs/Waiting.antt).
// Each function tests the length itself: a function that lends the FIFO's part, or takes a closure for it, would make none of them shorter.
ghost use Rattle.std.specs.Prelude.{◌≡◌, ◌++◌, eqb, length, take};
ghost use Rattle.chip.specs.Choice.{pick};
ghost use Rattle.chip.specs.Fifo.{fifo_bytes, front, pop, push};
ghost use Rattle.chip.specs.Image.{fifo_place, image_length, state_of};
ghost use Rattle.image.specs.Waiting.{image_drained, image_filled};

use crate::{FIFO, LENGTH};
use fifo::{bulk, part};

// The oldest byte.
#[tactic(auto, unfolding(chip::specs::Choice::pick))]
pub fn front(image: &[u8]) -> u8
    ensures { result ≡ pick (eqb (length image.now) image_length) (front (state_of image.now).fifo) 0 }
{
    if image.len() == LENGTH {
        part::front(&image[FIFO..LENGTH])
    } else {
        0
    }
}

// The oldest byte goes.
#[tactic(auto, unfolding(chip::specs::Image::state_of, chip::specs::Choice::pick))]
pub fn pop(image: &mut [u8])
    ensures { image.new ≡ pick (eqb (length image.old) image_length)
        (take fifo_place image.old ++ fifo_bytes (pop (state_of image.old).fifo)) image.old }
{
    if image.len() == LENGTH {
        part::pop(&mut image[FIFO..LENGTH]);
    }
}

// One byte more waits, where there is room.
#[tactic(auto, unfolding(chip::specs::Image::state_of, chip::specs::Choice::pick))]
pub fn push(b: u8, image: &mut [u8])
    ensures { image.new ≡ pick (eqb (length image.old) image_length)
        (take fifo_place image.old ++ fifo_bytes (push b (state_of image.old).fifo)) image.old }
{
    if image.len() == LENGTH {
        part::push(b, &mut image[FIFO..LENGTH]);
    }
}

// Many bytes, into a slice: how many.
#[tactic(auto, unfolding(crate::specs::Waiting::image_moved, crate::specs::Waiting::holds_fifo, chip::specs::Choice::both, chip::specs::Choice::pick))]
pub fn drain(image: &mut [u8], out: &mut [u8]) -> u8
    ensures { (result ≡ (image_drained out.old image.old).moved)
        × (image.new ≡ (image_drained out.old image.old).image)
        × (out.new ≡ (image_drained out.old image.old).bytes) }
{
    if image.len() == LENGTH {
        bulk::drain(&mut image[FIFO..LENGTH], out)
    } else {
        0
    }
}

// Many bytes, from a slice, as long as fewer than n wait: how many.
#[tactic(auto, unfolding(crate::specs::Waiting::image_moved, crate::specs::Waiting::holds_fifo, chip::specs::Choice::both, chip::specs::Choice::pick))]
pub fn fill(n: u32, image: &mut [u8], from: &[u8]) -> u8
    ensures { (result ≡ (image_filled n from.now image.old).moved)
        × (image.new ≡ (image_filled n from.now image.old).image) }
{
    if image.len() == LENGTH {
        bulk::fill(n, &mut image[FIFO..LENGTH], from)
    } else {
        0
    }
}
