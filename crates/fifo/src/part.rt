// The FIFO's part of the image: how many bytes wait, the place of the oldest, then the twelve places (chip's fifo_bytes). A byte that comes
// or goes is stored there with the ends, and no other place is. Bytes of another length are no FIFO's, and stay as they are.
// Each function tests the length itself: an array out of the slice would be a line more in each, and no index fewer.
ghost use Rattle.std.specs.Prelude.{◌≡◌, eqb, length, set};
ghost use Rattle.chip.specs.Choice.{pick};
ghost use Rattle.chip.specs.Fifo.{empty, ends_over, fifo_bytes, fifo_length, fifo_of, front, pop, push};
ghost use Rattle.fifo.specs.Part.{is_part};

use chip::Fifo;

// Where in the part stand: how many bytes wait, the place of the oldest, and the twelve places.
pub(crate) const HELD: usize = 0;

pub(crate) const FIRST: usize = 1;

pub(crate) const PLACES: usize = 2;

const LENGTH: usize = 14;

#[tactic(auto, unfolding(chip::specs::Choice::both, crate::specs::Part::is_part, chip::specs::Fifo::is_fifo))]
pub fn is_fifo(part: &[u8]) -> bool
    ensures { result ≡ is_part part.now }
{
    part.len() == LENGTH && (part[HELD] < 13) & (part[FIRST] < 12)
}

#[tactic(auto, unfolding(chip::specs::Fifo::fifo_of, chip::specs::Choice::pick))]
pub fn get(part: &[u8]) -> Fifo
    ensures { result ≡ pick (eqb (length part.now) fifo_length) (fifo_of part.now) empty }
{
    if let [held, first, places @ ..] = part
        && let Ok(bytes) = <[u8; 12]>::try_from(places)
    {
        return Fifo {
            bytes,
            first: *first,
            held: *held,
        };
    }
    crate::empty()
}

#[tactic(auto, unfolding(chip::specs::Fifo::fifo_bytes, chip::specs::Choice::pick))]
pub fn put(q: Fifo, part: &mut [u8])
    ensures { part.new ≡ pick (eqb (length part.old) fifo_length) (fifo_bytes q) part.old }
{
    if part.len() == LENGTH {
        part[PLACES..LENGTH].copy_from_slice(&q.bytes);
        part[HELD] = q.held;
        part[FIRST] = q.first;
    }
}

// The ends, and the place behind those that waited: all that differs after a step that brings one byte at most (chip's Goes).
#[tactic(auto, using(crate::proofs::Places::ends_in), unfolding(chip::specs::Choice::pick))]
pub fn put_ends(q: Fifo, part: &mut [u8])
    ensures { part.new ≡ pick (eqb (length part.old) fifo_length) (ends_over q part.old) part.old }
{
    if part.len() == LENGTH {
        let at = crate::behind(part[FIRST], part[HELD]) as usize;
        part[PLACES + at] = q.bytes[at];
        part[HELD] = q.held;
        part[FIRST] = q.first;
    }
}

// The oldest byte.
#[tactic(auto, using(crate::proofs::Places::front_in, crate::proofs::Places::beyond_in, crate::proofs::Places::none_in), unfolding(chip::specs::Choice::pick))]
pub fn front(part: &[u8]) -> u8
    ensures { result ≡ pick (eqb (length part.now) fifo_length) (front (fifo_of part.now)) 0 }
{
    if part.len() == LENGTH && part[HELD] != 0 && part[FIRST] < 12 {
        part[PLACES + part[FIRST] as usize]
    } else {
        0
    }
}

// The oldest byte goes.
#[tactic(auto, using(crate::proofs::Places::popped_in, crate::proofs::Places::empty_in), unfolding(chip::specs::Choice::pick))]
pub fn pop(part: &mut [u8])
    ensures { part.new ≡ pick (eqb (length part.old) fifo_length) (fifo_bytes (pop (fifo_of part.old))) part.old }
{
    if part.len() == LENGTH && part[HELD] != 0 {
        part[FIRST] = crate::behind(part[FIRST], 1);
        part[HELD] -= 1;
    }
}

// One byte more waits, where there is room.
#[tactic(auto, using(crate::proofs::Places::pushed_in, crate::proofs::Places::full_in), unfolding(chip::specs::Choice::pick))]
pub fn push(b: u8, part: &mut [u8])
    ensures { part.new ≡ pick (eqb (length part.old) fifo_length) (fifo_bytes (push b (fifo_of part.old))) part.old }
{
    if part.len() == LENGTH && part[HELD] < 12 {
        let at = PLACES + crate::behind(part[FIRST], part[HELD]) as usize;
        part[at] = b;
        part[HELD] += 1;
    }
}
