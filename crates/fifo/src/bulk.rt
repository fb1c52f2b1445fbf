// Many bytes at once: as many as a slice and the FIFO let through, into the slice or out of it (specs/Bulk.antt). Each goes straight
// between the slice and its place in the image, and the ends are stored once, after the last.
ghost use Rattle.std.specs.Prelude.{◌≡◌, ltb};
ghost use Rattle.chip.specs.Choice.{both};
ghost use Rattle.fifo.specs.Part.{part_drained, part_filled};

use crate::part::{self, FIRST, HELD, PLACES};

#[tactic(auto, using(crate::proofs::Stored::part_long))]
pub fn drain(part: &mut [u8], out: &mut [u8]) -> u8
    ensures { (result ≡ (part_drained out.old part.old).moved)
        × (part.new ≡ (part_drained out.old part.old).part)
        × (out.new ≡ (part_drained out.old part.old).bytes) }
{
    if !part::is_fifo(part) {
        return 0;
    }
    let waited = part[HELD];
    let mut held = waited;
    let mut first = part[FIRST];
    for byte in out.iter_mut() {
        if held == 0 {
            break;
        }
        let place = PLACES + first as usize;
        *byte = part[place];
        first = crate::next(first);
        held -= 1;
    }
    part[HELD] = held;
    part[FIRST] = first;
    waited - held
}

// A FIFO in which held bytes wait takes another.
#[tactic(auto, unfolding(chip::specs::Choice::both))]
fn takes(n: u32, held: u8) -> bool
    ensures { result ≡ both (ltb held n) (ltb held 12) }
{
    u32::from(held) < n && held < 12
}

#[tactic(auto, using(crate::proofs::Stored::part_long))]
pub fn fill(n: u32, part: &mut [u8], from: &[u8]) -> u8
    ensures { (result ≡ (part_filled n from.now part.old).moved)
        × (part.new ≡ (part_filled n from.now part.old).part) }
{
    if !part::is_fifo(part) {
        return 0;
    }
    let waited = part[HELD];
    let mut held = waited;
    let first = part[FIRST];
    // The place goes along: worked out anew for each byte of twelve, it took a twentieth more.
    let mut at = crate::behind(first, held);
    for byte in from {
        if !takes(n, held) {
            break;
        }
        let place = PLACES + at as usize;
        part[place] = *byte;
        at = crate::next(at);
        held += 1;
    }
    part[HELD] = held;
    held - waited
}
