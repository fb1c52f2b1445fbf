// What the host does: auxiliary status, registers, the Data register; the pointer alone is set and read in the image (room controller). The definitions of chip's specs/Registers.antt.
#![tactic(auto)]

pub mod data_register;
pub mod register;

ghost use Rattle.std.specs.Prelude.{◌≡◌};
ghost use Rattle.chip.specs.Registers.{accessed, accessed_at, auxiliary_read, is_blind, pointer_after, read_at, stepped, written_at};

use chip::{Answer, Reply, State};
use state::activity;

#[tactic(auto, unfolding(chip::specs::Registers::auxiliary_read))]
pub fn auxiliary_read(s: State) -> Reply
    ensures { result ≡ auxiliary_read s }
{
    let int = interrupts::interrupted(s);
    let bsy = interrupts::busy(s);
    let dbr = count::dbr(s);
    let byte = lines::packed(int, s.status.lci, bsy, s.status.pe, dbr);
    answers::says(Answer::Done(byte), s)
}

// 18h, 19h and 1Fh keep the pointer (001, Address register).
#[tactic(auto, unfolding(chip::specs::Registers::pointer_after, chip::specs::Choice::pick, chip::specs::Choice::either))]
fn pointer_after(a: u8) -> u8
    ensures { result ≡ pointer_after a }
{
    match a {
        0x18 | 0x19 | 0x1f => a,
        _ => a.wrapping_add(1),
    }
}

// While BSY is set, 18h and 19h alone are reachable.
#[tactic(auto, unfolding(chip::specs::Registers::is_blind, chip::specs::Choice::either, chip::specs::Choice::both))]
fn is_blind(writes: bool, a: u8, s: State) -> bool
    ensures { result ≡ is_blind writes a s }
{
    0x1a <= a || writes && a == 0x17 || interrupts::busy(s) && !matches!(a, 0x18 | 0x19)
}

#[tactic(auto, unfolding(chip::specs::Registers::read_at, chip::specs::Choice::pick))]
fn read_at(a: u8, mut s: State) -> Reply
    ensures { result ≡ read_at a s }
{
    match a {
        0x17 => {
            s.activity = activity::without_interrupt(s.activity);
            answers::says(Answer::Done(s.status.code), s)
        }
        0x18 => answers::says(Answer::Done(s.status.command), s),
        0x19 => data_register::data_read(s),
        _ => answers::says(Answer::Done(register::register_at(a, s.registers)), s),
    }
}

#[tactic(auto, unfolding(chip::specs::Registers::written_at, chip::specs::Choice::pick))]
fn written_at(a: u8, b: u8, s: State) -> Reply
    ensures { result ≡ written_at a b s }
{
    match a {
        0x18 => commands::commanded(b, s),
        0x19 => data_register::data_written(b, s),
        _ => answers::says(Answer::Done(0), register::stored(a, b, s)),
    }
}

#[tactic(auto, unfolding(chip::specs::Registers::stepped))]
fn stepped(a: u8, mut r: Reply) -> Reply
    ensures { result ≡ stepped a r }
{
    r.state.status.pointer = pointer_after(a);
    r
}

#[tactic(auto, unfolding(chip::specs::Registers::accessed_at, chip::specs::Choice::pick))]
fn accessed_at(a: u8, writes: bool, b: u8, s: State) -> Reply
    ensures { result ≡ accessed_at a writes b s }
{
    if is_blind(writes, a, s) {
        return answers::says(Answer::Blind, s);
    }
    if writes {
        return written_at(a, b, s);
    }
    read_at(a, s)
}

// The mark and the byte are two operands, as in the definition and the C entry: a read may come with any byte.
#[tactic(auto, unfolding(chip::specs::Registers::accessed))]
pub fn accessed(writes: bool, b: u8, s: State) -> Reply
    ensures { result ≡ accessed writes b s }
{
    let a = s.status.pointer;
    stepped(a, accessed_at(a, writes, b, s))
}
