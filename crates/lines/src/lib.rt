// Bits: auxiliary status, the bits of registers, the eight data lines, and identities, by shifts, masks and counts.
// The rooms above call it. Each function is, on every input, the definition that its contract names, of chip's specs/Lines.antt.
#![tactic(auto)]

ghost use Rattle.std.specs.Prelude.{◌≡◌, ◌<◌, ◌%◌};
ghost use Rattle.chip.specs.Lines.{
  is_on,
  packed,
  hsp,
  idi,
  with_idi,
  er,
  is_single,
  code_of,
  own_identity,
  destination,
  same_identity,
  lun_of,
  identify,
  line_of,
  ones,
  qualifies,
  are_two,
  lowest,
  without,
  other_identity,
  source_after,
};

use chip::{Identity, Lun, State};

#[tactic(auto, unfolding(chip::specs::Lines::is_on))]
fn is_on(k: u8, b: u8) -> bool
    requires { k < 8 }
    ensures { result ≡ is_on k b }
{
    b >> k & 1 == 1
}

pub fn packed(int: bool, lci: bool, bsy: bool, pe: bool, dbr: bool) -> u8
    ensures { result ≡ packed int lci bsy pe dbr }
{
    (int as u8) << 7 | (lci as u8) << 6 | (bsy as u8) << 5 | (pe as u8) << 1 | (dbr as u8)
}

// hsp, idi, er and is_single differ in the bit alone: each is one call of is_on, under the data sheet's name of that bit.
#[tactic(auto, unfolding(chip::specs::Lines::hsp))]
pub fn hsp(s: State) -> bool
    ensures { result ≡ hsp s }
{
    is_on(0, s.registers.setup.control)
}

#[tactic(auto, unfolding(chip::specs::Lines::idi))]
pub fn idi(s: State) -> bool
    ensures { result ≡ idi s }
{
    is_on(2, s.registers.setup.control)
}

pub fn with_idi(b: u8) -> u8
    ensures { result ≡ with_idi b }
{
    b | 4
}

#[tactic(auto, unfolding(chip::specs::Lines::er))]
pub fn er(s: State) -> bool
    ensures { result ≡ er s }
{
    is_on(7, s.registers.source)
}

#[tactic(auto, unfolding(chip::specs::Lines::is_single))]
pub fn is_single(b: u8) -> bool
    ensures { result ≡ is_single b }
{
    is_on(7, b)
}

#[tactic(auto, unfolding(chip::specs::Lines::code_of))]
pub fn code_of(b: u8) -> u8
    ensures { result ≡ code_of b }
{
    b & 0x7f
}

#[tactic(auto, unfolding(chip::specs::Lines::own_identity))]
pub fn own_identity(b: u8) -> Identity
    ensures { result ≡ own_identity b }
{
    Identity { number: b & 7 }
}

#[tactic(auto, unfolding(chip::specs::Lines::destination))]
pub fn destination(s: State) -> Identity
    ensures { result ≡ destination s }
{
    Identity {
        number: s.registers.destination & 7,
    }
}

#[tactic(auto, unfolding(chip::specs::Lines::same_identity))]
pub fn same_identity(i: Identity, j: Identity) -> bool
    ensures { result ≡ same_identity i j }
{
    i == j
}

#[tactic(auto, unfolding(chip::specs::Lines::lun_of))]
pub fn lun_of(s: State) -> Lun
    ensures { result ≡ lun_of s }
{
    Lun {
        number: s.registers.descriptor.lun & 7,
    }
}

pub fn identify(l: Lun, reselects: bool) -> u8
    ensures { result ≡ identify l reselects }
{
    0x80 | (reselects as u8) << 6 | l.number & 7
}

#[tactic(auto, unfolding(chip::specs::Lines::line_of))]
pub fn line_of(i: Identity) -> u8
    ensures { result ≡ line_of i }
{
    i.number & 7
}

fn ones(lines: u8) -> u32
    ensures { result ≡ ones lines }
{
    lines.count_ones()
}

#[tactic(auto, unfolding(chip::specs::Lines::qualifies, chip::specs::Choice::both, chip::specs::Choice::either))]
pub fn qualifies(lines: u8, s: State) -> bool
    ensures { result ≡ qualifies lines s }
{
    er(s) && is_on(line_of(s.wire.identity), lines) && matches!(ones(lines), 1 | 2)
}

#[tactic(auto, unfolding(chip::specs::Lines::are_two))]
pub fn are_two(lines: u8) -> bool
    ensures { result ≡ are_two lines }
{
    ones(lines) == 2
}

// The mask makes the eight zeros of no line 0.
fn lowest(lines: u8) -> u8
    ensures { result ≡ lowest lines }
{
    (lines.trailing_zeros() & 7) as u8
}

fn without(k: u8, lines: u8) -> u8
    requires { k < 8 }
    ensures { result ≡ without k lines }
{
    lines & !(1u8 << k)
}

#[tactic(auto, unfolding(chip::specs::Lines::other_identity))]
pub fn other_identity(own: Identity, lines: u8) -> Identity
    ensures { result ≡ other_identity own lines }
{
    Identity {
        number: lowest(without(line_of(own), lines)),
    }
}

#[tactic(auto, unfolding(chip::specs::Lines::source_after, chip::specs::Choice::pick))]
pub fn source_after(lines: u8, s: State) -> u8
    ensures { result ≡ source_after lines s }
{
    let kept = s.registers.source & 0xf0;
    if are_two(lines) {
        kept | 8 | other_identity(s.wire.identity, lines).number
    } else {
        kept
    }
}
