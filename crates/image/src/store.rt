// One field's change, made in the image itself: only that field's bytes are stored. chip's proofs/ImageFields.antt and
// ImageRegisters.antt say that such a store is the image of the state with the field changed. Bytes of another length than an image's
// stay as they are.
ghost use Rattle.std.specs.Prelude.{◌≡◌, ◌++◌, ◌<◌, eqb, ltb, length, set, take, drop};
ghost use Rattle.chip.specs.Choice.{pick, both};
ghost use Rattle.chip.specs.Fifo.{ends_over, fifo_bytes};
ghost use Rattle.chip.specs.Image.{image_length, fifo_place};

use crate::{FIFO, LENGTH};
use chip::Fifo;
use fifo::part;

// One byte.
#[tactic(auto, unfolding(chip::specs::Choice::pick))]
fn byte(at: usize, b: u8, image: &mut [u8])
    requires { at < image_length }
    ensures { image.new ≡ pick (eqb (length image.old) image_length) (set image.old at b) image.old }
{
    if image.len() == LENGTH {
        image[at] = b;
    }
}

// Three fields under the names by which room controller and docs/ARCHITECTURE.md know them.
pub fn pointer(b: u8, image: &mut [u8])
    ensures { image.new ≡ pick (eqb (length image.old) image_length) (set image.old 25 b) image.old }
{
    byte(25, b, image);
}

// A register of 00 to 16h stands at its address.
#[tactic(auto, unfolding(chip::specs::Choice::pick, chip::specs::Choice::both))]
pub fn register(a: u8, b: u8, image: &mut [u8])
    ensures { image.new ≡ pick (both (eqb (length image.old) image_length) (ltb a 0x17)) (set image.old a b) image.old }
{
    if a < 0x17 {
        byte(a as usize, b, image);
    }
}

// The low byte of the count.
pub fn count_low(b: u8, image: &mut [u8])
    ensures { image.new ≡ pick (eqb (length image.old) image_length) (set image.old 20 b) image.old }
{
    byte(20, b, image);
}

// The phase of the last Request answered, as its byte: any byte, since the promise is made of every one.
pub fn last(b: u8, image: &mut [u8])
    ensures { image.new ≡ pick (eqb (length image.old) image_length) (set image.old 37 b) image.old }
{
    byte(37, b, image);
}

// `fifo` and `ends` differ in what they store of the FIFO: all twelve places, or one.

// The whole FIFO.
#[tactic(auto, unfolding(chip::specs::Choice::pick, chip::specs::Fifo::fifo_bytes))]
pub fn fifo(q: Fifo, image: &mut [u8])
    ensures { image.new ≡ pick (eqb (length image.old) image_length)
        (take fifo_place image.old ++ fifo_bytes q) image.old }
{
    if image.len() == LENGTH {
        part::put(q, &mut image[FIFO..LENGTH]);
    }
}

// The ends of the FIFO, and the place behind those that waited.
#[tactic(auto, unfolding(chip::specs::Image::state_of, chip::specs::Choice::pick))]
pub fn ends(q: Fifo, image: &mut [u8])
    ensures { image.new ≡ pick (eqb (length image.old) image_length)
        (take fifo_place image.old ++ ends_over q (drop fifo_place image.old)) image.old }
{
    if image.len() == LENGTH {
        part::put_ends(q, &mut image[FIFO..LENGTH]);
    }
}
