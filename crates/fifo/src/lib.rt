// The FIFO of 12 bytes: the only code that knows how they are kept. Each function is the definition of the same name in chip's
// specs/Fifo.antt.
#![tactic(auto)]

pub mod part; // part.rt: the FIFO's part of the image
pub mod bulk; // bulk.rt: many bytes at once, in that part

ghost use Rattle.std.specs.Prelude.{not, ◌≡◌, ◌+◌, ◌<◌};
ghost use Rattle.chip.specs.Fifo.{empty, emptied, is_empty, has_room, front, pop, push, round, waits};

use chip::Fifo;

// The place of a number: the twelve go round.
#[tactic(auto, unfolding(chip::specs::Fifo::round, chip::specs::Choice::pick))]
fn round(n: u32) -> u8
    ensures place { result ≡ round n }
    ensures within { result < 12 }
{
    if n < 12 {
        n as u8
    } else if n < 24 {
        (n - 12) as u8
    } else {
        0
    }
}

// The place behind held bytes, of which the oldest has the place first.
pub(crate) fn behind(first: u8, held: u8) -> u8
    ensures place { result ≡ round (first + held) }
    ensures within { result < 12 }
{
    round(u32::from(first) + u32::from(held))
}

// The place after one of the twelve: `behind(place, 1)` with one test fewer, for the loops.
#[tactic(auto, unfolding(chip::specs::Fifo::round, chip::specs::Choice::pick))]
pub(crate) fn next(place: u8) -> u8
    requires { place < 12 }
    ensures place { result ≡ round (place + 1) }
    ensures within { result < 12 }
{
    if place < 11 { place + 1 } else { 0 }
}

// Nothing waits.
pub fn empty() -> Fifo
    ensures { result ≡ empty }
{
    Fifo {
        bytes: [0; 12],
        first: 0,
        held: 0,
    }
}

// What waited is dropped.
pub fn emptied(mut q: Fifo) -> Fifo
    ensures { result ≡ emptied q }
{
    q.first = 0;
    q.held = 0;
    q
}

#[tactic(auto, unfolding(chip::specs::Fifo::waits))]
pub fn waits(q: Fifo) -> u8
    ensures { result ≡ waits q }
{
    q.held
}

#[tactic(auto, unfolding(chip::specs::Fifo::is_empty))]
pub fn is_empty(q: Fifo) -> bool
    ensures { result ≡ is_empty q }
{
    q.held == 0
}

#[tactic(auto, unfolding(chip::specs::Fifo::has_room))]
pub fn has_room(q: Fifo) -> bool
    ensures { result ≡ has_room q }
{
    q.held < 12
}

// Of a FIFO whose oldest byte has none of the twelve places, 0: no image says one.
#[tactic(auto, unfolding(chip::specs::Fifo::front, chip::specs::Fifo::is_empty, chip::specs::Choice::pick))]
pub fn front(q: Fifo) -> u8
    ensures { result ≡ front q }
{
    // Not q.bytes.get: an Option of a reference is laid out for 64 bits in the module, and boards of 32 bits run it.
    if q.held != 0 && q.first < 12 {
        q.bytes[q.first as usize]
    } else {
        0
    }
}

#[tactic(auto, unfolding(chip::specs::Fifo::pop, chip::specs::Choice::pick, chip::specs::Fifo::is_empty))]
pub fn pop(mut q: Fifo) -> Fifo
    ensures { result ≡ pop q }
{
    if q.held != 0 {
        q.first = behind(q.first, 1);
        q.held -= 1;
    }
    q
}

#[tactic(auto, unfolding(chip::specs::Fifo::push, chip::specs::Fifo::has_room, chip::specs::Fifo::place_behind, chip::specs::Choice::pick))]
pub fn push(b: u8, mut q: Fifo) -> Fifo
    ensures { result ≡ push b q }
{
    if q.held < 12 {
        let at = behind(q.first, q.held) as usize;
        q.bytes[at] = b;
        q.held += 1;
    }
    q
}
