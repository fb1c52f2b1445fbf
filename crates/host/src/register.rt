// Registers 00 to 16h, read and stored at their addresses. Those stay numbers, as in the definition: the pointer holds any byte, and 03 to 0Eh are
// places of one array.
ghost use Rattle.std.specs.Prelude.{◌≡◌};
ghost use Rattle.chip.specs.Registers.{register_at, stored};

use chip::{Registers, State};

#[tactic(auto, unfolding(chip::specs::Registers::register_at, chip::specs::Choice::pick))]
pub fn register_at(a: u8, r: Registers) -> u8
    ensures { result ≡ register_at a r }
{
    let [_, high, middle, low] = r.count.to_be_bytes();
    match a {
        0x00 => r.setup.own,
        0x01 => r.setup.control,
        0x02 => r.setup.timeout,
        0x03..=0x0e => r.descriptor.cdb[(a - 3) as usize],
        0x0f => r.descriptor.lun,
        0x10 => r.descriptor.phase,
        0x11 => r.setup.synchronous,
        0x12 => high,
        0x13 => middle,
        0x14 => low,
        0x15 => r.destination,
        _ => r.source,
    }
}

// The high byte of the count clears what stands above it, which no register shows; the other two keep it.
#[tactic(auto, unfolding(chip::specs::Registers::stored, chip::specs::Registers::stored_in, chip::specs::Registers::high_written, chip::specs::Registers::middle_written, chip::specs::Registers::low_written, chip::specs::Choice::pick))]
pub fn stored(a: u8, b: u8, mut s: State) -> State
    ensures { result ≡ stored a b s }
{
    let r = &mut s.registers;
    let [top, high, middle, low] = r.count.to_be_bytes();
    match a {
        0x00 => r.setup.own = b,
        0x01 => r.setup.control = b,
        0x02 => r.setup.timeout = b,
        0x03..=0x0e => r.descriptor.cdb[(a - 3) as usize] = b,
        0x0f => r.descriptor.lun = b,
        0x10 => r.descriptor.phase = b,
        0x11 => r.setup.synchronous = b,
        0x12 => r.count = u32::from_be_bytes([0, b, middle, low]),
        0x13 => r.count = u32::from_be_bytes([top, high, b, low]),
        0x14 => r.count = u32::from_be_bytes([top, high, middle, b]),
        0x15 => r.destination = b,
        _ => r.source = b,
    }
    s
}
