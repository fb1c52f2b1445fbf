// Block moves, in the image: chip's block_read and block_written, single accesses to the Data register until the slice ends or answer 7
// would come. The bytes go between the slice and their places in the image (room fifo); an ending settles once, after the last.
#![tactic(auto)]

ghost use Rattle.std.specs.Prelude.{◌≡◌};
ghost use Rattle.chip.specs.Image.{image_of, state_of};
ghost use Rattle.chip.specs.Interrupts.{settled};
ghost use Rattle.chip.specs.Registers.{block_read, block_written};
ghost use Rattle.image.specs.IsImage.{IsImage};

use chip::Direction;
use image::waiting;

// That the bytes are an image is required by each function, as in controller's in_place.rt, where the reason stands.

// What an ending comes to once the FIFO is read out; nothing is stored while bytes wait. Data comes in, so no byte of the FIFO changes, nor does
// a command byte: those are taken from the state before, so that the compiler carries them through no copy of the state.
pub fn settle(image: &mut [u8])
    requires { IsImage image.old × ((state_of image.old).transfer.direction ≡ Direction.In) }
    ensures { image.new ≡ image_of (settled (state_of image.old)) }
{
    let s = image::state(image);
    if !fifo::is_empty(s.fifo) {
        return;
    }
    let cdb = s.registers.descriptor.cdb;
    let mut settled = interrupts::settled(s);
    settled.registers.descriptor.cdb = cdb;
    image::write_on(settled, image);
}

// The bytes that wait, into the slice; an ending settles where one moved. How many moved.
fn read_in(image: &mut [u8], out: &mut [u8]) -> u8
    requires { IsImage image.old × ((state_of image.old).transfer.direction ≡ Direction.In) }
    ensures { (result ≡ (block_read out.old (state_of image.old)).number)
        × (image.new ≡ image_of (block_read out.old (state_of image.old)).state)
        × (out.new ≡ (block_read out.old (state_of image.old)).bytes) }
{
    let s = image::state(image);
    let number = waiting::drain(image, out);
    if number != 0 && interrupts::in_ending(s) {
        settle(image);
    }
    number
}

// Reads into the slice: how many.
pub fn block_read(image: &mut [u8], out: &mut [u8]) -> u8
    requires { IsImage image.old }
    ensures { (result ≡ (block_read out.old (state_of image.old)).number)
        × (image.new ≡ image_of (block_read out.old (state_of image.old)).state)
        × (out.new ≡ (block_read out.old (state_of image.old)).bytes) }
{
    let s = image::state(image);
    match s.transfer.direction {
        Direction::In => read_in(image, out),
        _ => 0,
    }
}

// Writes out of the slice: how many.
pub fn block_written(image: &mut [u8], from: &[u8]) -> u8
    requires { IsImage image.old }
    ensures { (result ≡ (block_written from.now (state_of image.old)).number)
        × (image.new ≡ image_of (block_written from.now (state_of image.old)).state) }
{
    let s = image::state(image);
    match s.transfer.direction {
        Direction::Out => {
            let left = count::left(s);
            waiting::fill(left, image, from)
        }
        _ => 0,
    }
}
