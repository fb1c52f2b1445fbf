// Translate Address: where a logical address lies on a disk. The definitions of chip's specs/Translate.antt.
// cdb is registers 03 to 0Eh: the register at address a stands at place a - 3.
#![tactic(auto)]

ghost use Rattle.std.specs.Prelude.{None, Some, ◌≡◌};
ghost use Rattle.chip.specs.Choice.{either, pick};
ghost use Rattle.chip.specs.Translate.{address_of, exceeds, geometry_of, has_too_many_cylinders, has_too_many_heads, physical_of, translated};

use chip::State;
use std::marker::Model;

// The disk: sectors on a track, heads, cylinders; whether sectors are kept as spares, and how many a cylinder has beside them.
#[derive(Drop)]
struct Geometry {
    sectors: u8,
    heads: u8,
    cylinders: u16,
    per_cylinder: u32,
    has_spares: bool,
}

impl Model for Geometry {
    ghost Value = { Rattle.chip.specs.Translate.Geometry };

    ghost view = { λ g. record {
      sectors = g.sectors;
      heads = g.heads;
      cylinders = g.cylinders;
      per_cylinder = g.per_cylinder;
      has_spares = g.has_spares;
    } };
}

// Where a sector is on the disk, each number from 0.
#[derive(Drop)]
struct Physical {
    cylinder: u16,
    head: u8,
    sector: u8,
}

impl Model for Physical {
    ghost Value = { Rattle.chip.specs.Translate.Physical };

    ghost view = { λ p. record { cylinder = p.cylinder; head = p.head; sector = p.sector } };
}

#[tactic(auto, unfolding(chip::specs::Translate::joined, chip::specs::Translate::has_spares_in, chip::specs::Translate::per_cylinder_in, chip::specs::Choice::pick))]
fn geometry_of(cdb: [u8; 12]) -> Geometry
    ensures { result ≡ geometry_of cdb }
{
    let has_spares = cdb[9] != 0;
    let per_cylinder = if has_spares {
        u16::from_be_bytes([cdb[10], cdb[11]]) as u32
    } else {
        (cdb[0] as u32) * (cdb[1] as u32)
    };
    Geometry {
        sectors: cdb[0],
        heads: cdb[1],
        cylinders: u16::from_be_bytes([cdb[2], cdb[3]]),
        per_cylinder,
        has_spares,
    }
}

#[tactic(auto, unfolding(chip::specs::Translate::joined, chip::specs::Translate::address_of))]
fn address_of(cdb: [u8; 12]) -> u32
    ensures { result ≡ address_of cdb }
{
    u32::from_be_bytes([cdb[4], cdb[5], cdb[6], cdb[7]])
}

impl Geometry {
    #[tactic(auto, unfolding(chip::specs::Translate::has_too_many_cylinders, chip::specs::Translate::has_too_many_heads, chip::specs::Choice::either, chip::specs::Choice::both))]
    fn has_too_many(&self) -> bool
        ensures { result ≡ either (has_too_many_cylinders self.now) (has_too_many_heads self.now) }
    {
        self.has_spares && (4096 < self.cylinders || 15 < self.heads)
    }

    // The quotients are compared whole: the registers hold only 8 and 16 bits of them.
    #[tactic(auto, unfolding(chip::specs::Translate::exceeds, chip::specs::Translate::divides_by_zero, chip::specs::Choice::either, chip::specs::Choice::pick, chip::specs::Translate::is_beyond_heads, chip::specs::Translate::head_of, chip::specs::Translate::is_beyond_cylinders, chip::specs::Translate::cylinder_of, chip::specs::Translate::sector_of))]
    fn physical_of(&self, n: u32) -> Option<Physical>
        ensures { result ≡ pick (exceeds self.now n) None (Some (physical_of self.now n)) }
    {
        let per = self.per_cylinder;
        let sectors = self.sectors as u32;
        if per == 0 || sectors == 0 {
            return None;
        }
        let cylinder = n / per;
        let head = n % per / sectors;
        if self.heads as u32 <= head || self.cylinders as u32 <= cylinder || self.has_too_many() {
            return None;
        }
        Some(Physical {
            cylinder: cylinder as u16,
            head: head as u8,
            sector: (n % per % sectors) as u8,
        })
    }
}

#[tactic(auto, unfolding(chip::specs::Translate::translated, chip::specs::Translate::translated_by, chip::specs::Translate::placed, chip::specs::Choice::pick))]
pub fn translated(mut s: State) -> State
    ensures { result ≡ translated s }
{
    let cdb = s.registers.descriptor.cdb;
    match geometry_of(cdb).physical_of(address_of(cdb)) {
        None => interrupts::raise(0x45, s),
        Some(p) => {
            let [high, low] = p.cylinder.to_be_bytes();
            s.registers.descriptor.cdb[8] = p.sector;
            s.registers.descriptor.cdb[9] = p.head;
            s.registers.descriptor.cdb[10] = high;
            s.registers.descriptor.cdb[11] = low;
            interrupts::raise(0x15, s)
        }
    }
}
