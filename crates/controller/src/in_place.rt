// The calls on the lent bytes. Those that room moves names store only the bytes that change; every other call is made on the state, and
// the whole image is written.
// `requires { IsImage image.old }` stands in each helper: a struct around the `&mut [u8]` with that as its ghost field would have to be
// proved an image again after each single store, and whoever lent the bytes would not learn what they became (both tried).
#![tactic(auto, unfolding(chip::specs::Choice::pick))]

ghost use Rattle.std.specs.Prelude.{◌≡◌, ◌-◌, ◌%◌, ◌≤◌, true, false};
ghost use Rattle.chip.specs.Choice.{pick};
ghost use Rattle.chip.specs.Events.{answered, freed, passed, requested, reselected};
ghost use Rattle.chip.specs.Fifo.{has_room, is_empty};
ghost use Rattle.chip.specs.Image.{state_of};
ghost use Rattle.chip.specs.Moves.{is_plain, reads_data, sends_data, takes_data, writes_data};
ghost use Rattle.chip.specs.Registers.{accessed, auxiliary_read, block_read, block_written, pointer_read, pointer_set};
ghost use Rattle.controller.specs.Returns.{Returns, Serves, ServesBlock, Tells};
ghost use Rattle.image.specs.IsImage.{IsImage};

use crate::operands::{BadNumber, test_image};
use answers::result;
use bus::{answer, free, request, reselection, time};
use chip::{Answer, Connection, Phase, Reply, Request, State};
use image::{store, waiting};

// The state that an image says.
#[tactic(auto, using(crate::proofs::Entry::long_enough), unfolding(chip::specs::Choice::pick))]
fn state(image: &[u8]) -> State
    requires { IsImage image.now }
    ensures { result ≡ state_of image.now }
{
    image::state(image)
}

// What a call made on the state does last: the new state goes into the image.
#[tactic(auto, using(crate::proofs::Entry::long_enough), unfolding(chip::specs::Choice::pick))]
fn finish(r: Reply, image: &mut [u8]) -> Answer
    requires { IsImage image.old }
    ensures { Returns r result image.new }
{
    image::write(r.state, image);
    r.answer
}

// No Request changes a command byte (chip's proofs/CommandBytes.antt): they are taken from the state before, so that the
// compiler carries them through no copy of the state.
fn kept(s: State, mut r: Reply) -> Reply
    requires { r.state.registers.descriptor.cdb ≡ s.registers.descriptor.cdb }
    ensures { result ≡ r }
{
    let cdb = s.registers.descriptor.cdb;
    r.state.registers.descriptor.cdb = cdb;
    r
}

// One of registers 00 to 16h is read. "The 8-bit address pointer uses the supplied wrapping add at every address but three."
#[tactic(auto, using(crate::proofs::Steps::length_is, crate::proofs::Steps::plain_below, crate::proofs::Steps::plain_given))]
fn plain_read(image: &mut [u8]) -> Answer
    requires { IsImage image.old × (is_plain (state_of image.old) ≡ true) }
    ensures { Returns (accessed false 0 (state_of image.old)) result image.new }
{
    let a = image[25];
    let value = image[a as usize];
    store::pointer(a.wrapping_add(1), image);
    Answer::Done(value)
}

// One of them is written.
#[tactic(auto, using(crate::proofs::Steps::length_is, crate::proofs::Steps::plain_written))]
fn plain_written(byte: u8, image: &mut [u8]) -> Answer
    requires { IsImage image.old × (is_plain (state_of image.old) ≡ true) }
    ensures { Returns (accessed true byte (state_of image.old)) result image.new }
{
    let a = image[25];
    store::register(a, byte, image);
    store::pointer(a.wrapping_add(1), image);
    Answer::Done(0)
}

// The oldest byte of the FIFO, for the host. The last one of an ending lets it settle.
#[tactic(auto, using(crate::proofs::Steps::data_given, crate::proofs::Steps::data_settled))]
fn data_read(image: &mut [u8]) -> Answer
    requires { IsImage image.old × (reads_data (state_of image.old) ≡ true) }
    ensures { Returns (accessed false 0 (state_of image.old)) result image.new }
{
    let s = state(image);
    let value = waiting::front(image);
    waiting::pop(image);
    if interrupts::in_ending(s) {
        blocks::settle(image);
    }
    Answer::Done(value)
}

// A byte from the host, into the FIFO.
#[tactic(auto, using(crate::proofs::Steps::data_written_lem))]
fn data_written(byte: u8, image: &mut [u8]) -> Answer
    requires { IsImage image.old × (writes_data (state_of image.old) ≡ true) }
    ensures { Returns (accessed true byte (state_of image.old)) result image.new }
{
    waiting::push(byte, image);
    Answer::Done(0)
}

// The long ways. tools/native-lib keeps them out of the entries' own code, which then needs few registers. A read and a write are two
// functions: one with a flag took 477 instructions for 417, since it asked for the flag at each step.

fn read_whole(image: &mut [u8]) -> Answer
    requires { IsImage image.old }
    ensures { Returns (accessed false 0 (state_of image.old)) result image.new }
{
    finish(host::accessed(false, 0, state(image)), image)
}

fn written_whole(byte: u8, image: &mut [u8]) -> Answer
    requires { IsImage image.old }
    ensures { Returns (accessed true byte (state_of image.old)) result image.new }
{
    finish(host::accessed(true, byte, state(image)), image)
}

// At most one byte came into the FIFO, so of its places that one's alone is stored.
#[tactic(auto, using(chip::proofs::FifoSteps::requested_goes, chip::proofs::CommandBytes::requested_keeps))]
fn request_whole(request: Request, image: &mut [u8]) -> Answer
    requires { IsImage image.old }
    ensures { Returns (requested request.phase request.byte request.bad (state_of image.old)) result image.new }
{
    let s = state(image);
    let r = kept(s, request::requested(request, s));
    image::write_on(r.state, image);
    r.answer
}

// The low byte of the count, one less.
fn low_after(s: State) -> u8
    requires { 2 ≤ s.registers.count % 256 }
    ensures { result ≡ (s.registers.count - 1) % 256 }
{
    (s.registers.count % 256 - 1) as u8
}

// A byte of Data In, into the FIFO. In the image a phase is one more than its number, and 0 is none; `last` takes any byte.
#[tactic(auto, using(crate::proofs::Steps::low_enough, crate::proofs::Steps::taken_made))]
fn byte_taken(byte: u8, image: &mut [u8]) -> Answer
    requires { IsImage image.old × (takes_data (state_of image.old) ≡ true) × (has_room (state_of image.old).fifo ≡ true) }
    ensures { Returns (requested Phase.DataIn byte false (state_of image.old)) result image.new }
{
    let low = low_after(state(image));
    waiting::push(byte, image);
    store::count_low(low, image);
    store::last(Phase::DataIn as u8 + 1, image);
    Answer::Done(byte)
}

// A byte of Data Out, from the FIFO.
#[tactic(auto, using(crate::proofs::Steps::low_enough_out, crate::proofs::Steps::sent_made))]
fn byte_sent(byte: u8, bad: bool, image: &mut [u8]) -> Answer
    requires { IsImage image.old × (sends_data (state_of image.old) ≡ true) × (is_empty (state_of image.old).fifo ≡ false) }
    ensures { Returns (requested Phase.DataOut byte bad (state_of image.old)) result image.new }
{
    let low = low_after(state(image));
    let value = waiting::front(image);
    waiting::pop(image);
    store::count_low(low, image);
    store::last(Phase::DataOut as u8 + 1, image);
    Answer::Done(value)
}

// The calls. Each tests the image before all else. Where several ways meet, each makes its answer the number that C is told: with one
// place for all of them behind the last, a held Request took 159 instructions for 139.

#[tactic(auto, using(crate::proofs::Steps::pointer_stored_made), unfolding(chip::specs::Registers::pointer_read, chip::specs::Registers::pointer_set, chip::specs::Choice::pick))]
pub(crate) fn pointer(writes: bool, byte: u8, image: &mut [u8]) -> Result<u32, BadNumber>
    ensures { Serves (λ s. pick writes (pointer_set byte s) (pointer_read s)) result image.old image.new }
{
    test_image(image)?;
    if writes {
        store::pointer(byte, image);
        return Ok(result(Answer::Done(0)));
    }
    let s = state(image);
    Ok(result(Answer::Done(s.status.pointer)))
}

#[tactic(auto, unfolding(chip::specs::Registers::auxiliary_read, chip::specs::Choice::pick))]
pub(crate) fn auxiliary(image: &mut [u8]) -> Result<u32, BadNumber>
    ensures { Serves auxiliary_read result image.old image.new }
{
    test_image(image)?;
    let s = state(image);
    Ok(result(host::auxiliary_read(s).answer))
}

#[tactic(auto, using(crate::proofs::Steps::read_alike, chip::proofs::Moves::nothing_read, chip::proofs::Moves::nothing_written), unfolding(chip::specs::Choice::pick))]
pub(crate) fn register(writes: bool, byte: u8, image: &mut [u8]) -> Result<u32, BadNumber>
    ensures { Serves (accessed writes byte) result image.old image.new }
{
    test_image(image)?;
    let s = state(image);
    Ok(if moves::is_plain(s) {
        if writes {
            result(plain_written(byte, image))
        } else {
            result(plain_read(image))
        }
    } else if writes && moves::writes_data(s) {
        result(data_written(byte, image))
    } else if !writes && moves::reads_data(s) {
        result(data_read(image))
    } else if moves::is_at_data(s) {
        result(Answer::NoDataNow)
    } else if writes {
        result(written_whole(byte, image))
    } else {
        result(read_whole(image))
    })
}

#[tactic(auto, using(blocks::proofs::Blocks::written_bytes), unfolding(chip::specs::Choice::pick))]
pub(crate) fn block(writes: bool, bytes: &mut [u8], image: &mut [u8]) -> Result<u32, BadNumber>
    ensures { ServesBlock (λ s. pick writes (block_written bytes.old s) (block_read bytes.old s)) result image.old image.new bytes.old bytes.new }
{
    test_image(image)?;
    Ok(result(Answer::Done(if writes {
        blocks::block_written(image, bytes)
    } else {
        blocks::block_read(image, bytes)
    })))
}

// Time counts only where a selection runs.
#[tactic(auto, unfolding(chip::specs::Events::passed, chip::specs::Choice::pick))]
pub(crate) fn time(units: u8, image: &mut [u8]) -> Result<u32, BadNumber>
    ensures { Serves (passed units) result image.old image.new }
{
    test_image(image)?;
    let s = state(image);
    if !time::selects(s) {
        return Ok(result(Answer::Done(0)));
    }
    Ok(result(finish(time::passed(units, s), image)))
}

pub(crate) fn answer(image: &mut [u8]) -> Result<u32, BadNumber>
    ensures { Serves answered result image.old image.new }
{
    test_image(image)?;
    let s = state(image);
    Ok(result(finish(answer::answered(s), image)))
}

// A reselection that names another is not for us, and changes nothing.
#[tactic(auto, unfolding(chip::specs::Events::reselected, chip::specs::Choice::pick))]
pub(crate) fn reselection(data_lines: u8, image: &mut [u8]) -> Result<u32, BadNumber>
    ensures { Serves (reselected data_lines) result image.old image.new }
{
    test_image(image)?;
    let s = state(image);
    if !lines::qualifies(data_lines, s) {
        return Ok(result(Answer::ReselectionIgnored));
    }
    Ok(result(finish(reselection::reselected(data_lines, s), image)))
}

// The two ways of data are two functions: one for both took 140 instructions for 137, and would ask for the phase at each of three steps.

// A Request of Data In with good parity.
#[tactic(auto, using(chip::proofs::Moves::in_held))]
fn request_in(byte: u8, image: &mut [u8]) -> u32
    requires { IsImage image.old }
    ensures { Tells (requested Phase.DataIn byte false (state_of image.old)) result image.new }
{
    let s = state(image);
    if !moves::takes_data(s) {
        result(request_whole(
            Request {
                phase: Phase::DataIn,
                byte,
                bad: false,
            },
            image,
        ))
    } else if moves::has_room(s) {
        result(byte_taken(byte, image))
    } else {
        result(Answer::Held)
    }
}

// A Request of Data Out.
#[tactic(auto, using(chip::proofs::Moves::out_held))]
fn request_out(byte: u8, bad: bool, image: &mut [u8]) -> u32
    requires { IsImage image.old }
    ensures { Tells (requested Phase.DataOut byte bad (state_of image.old)) result image.new }
{
    let s = state(image);
    if !moves::sends_data(s) {
        result(request_whole(
            Request {
                phase: Phase::DataOut,
                byte,
                bad,
            },
            image,
        ))
    } else if moves::has_byte(s) {
        result(byte_sent(byte, bad, image))
    } else {
        result(Answer::Held)
    }
}

pub(crate) fn request(request: Request, image: &mut [u8]) -> Result<u32, BadNumber>
    ensures { Serves (requested request.phase request.byte request.bad) result image.old image.new }
{
    test_image(image)?;
    Ok(if request.phase == Phase::DataOut {
        request_out(request.byte, request.bad, image)
    } else if request.phase == Phase::DataIn && !request.bad {
        request_in(request.byte, image)
    } else {
        result(request_whole(request, image))
    })
}

// A Free where there is no connection is out of place, and changes nothing.
#[tactic(auto, unfolding(chip::specs::Events::freed, chip::specs::Choice::pick))]
pub(crate) fn free(image: &mut [u8]) -> Result<u32, BadNumber>
    ensures { Serves freed result image.old image.new }
{
    test_image(image)?;
    let s = state(image);
    if s.wire.connection != Connection::Connected {
        return Ok(result(Answer::OutOfPlace));
    }
    Ok(result(finish(free::freed(s), image)))
}
