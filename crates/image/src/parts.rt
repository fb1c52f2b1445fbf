// The parts of a state, out of an image and into it.
// Bytes that are read carry their length in a model. Bytes that are written require it: with the `&mut` in a struct whoever lent it does not
// learn what they became (`c.image-1.given.0 ≡ ..` stays open). A reference to an array comes out of a slice in an Option, which the module
// lays out for 64 bits, and boards of 32 bits run it.
ghost use Rattle.std.specs.Prelude.{◌≡◌, ◌++◌, List, ℕ, length, take, drop};
ghost use Rattle.std.proofs.lemmas.List.Edits.{sets};
ghost use Rattle.chip.specs.Image.{fifo_place, image_length, is_image, state_of, head_bytes, middle_bytes, image_of};

use crate::cases::{direction_of, noted_byte, noted_of};
use crate::{FIFO, LENGTH, store};
use chip::{
    Activity, Descriptor, Fifo, Handshake, Identity, Registers, Seen, Setup, State, Status,
    Transfer, Wire,
};
use fifo::part;
use state::{activity, connections};
use std::marker::Model;

// Bytes as long as an image, lent to be read; a contract sees them as the list that they are.
#[derive(Drop)]
pub(crate) struct Bytes<'a> {
    pub(crate) all: &'a [u8],
}

impl<'a> Model for Bytes<'a> {
    ghost Value = { List ℕ };

    ghost view = { λ b. b.all.now };

    ghost invariant = { λ b. length b.all.now ≡ image_length };
}

impl<'a> Bytes<'a> {
    #[tactic(auto, unfolding(chip::specs::Choice::both, chip::specs::Image::is_image))]
    pub(crate) fn has_form(&self) -> bool
        ensures { result ≡ is_image self.now }
    {
        // The five flags stand side by side, so that the compiler asks them at once.
        let ranges = (self.all[26] < 2)
            & (self.all[27] < 2)
            & (self.all[33] < 2)
            & (self.all[34] < 2)
            & (self.all[35] < 2)
            & (self.all[30] < connections::COUNT)
            & (self.all[32] < 3)
            & (self.all[36] < 9)
            & (self.all[37] < 9)
            & (self.all[38] < 8)
            & crate::is_activity(self.all[28], self.all[29], self.all[31]);
        ranges && part::is_fifo(&self.all[FIFO..LENGTH])
    }

    #[tactic(auto, unfolding(chip::specs::Image::state_of))]
    fn registers(&self) -> Registers
        ensures { result ≡ (state_of self.now).registers }
    {
        let mut cdb = [0; 12];
        cdb.copy_from_slice(&self.all[3..15]);
        Registers {
            setup: Setup {
                own: self.all[0],
                control: self.all[1],
                timeout: self.all[2],
                synchronous: self.all[17],
            },
            descriptor: Descriptor {
                cdb,
                lun: self.all[15],
                phase: self.all[16],
            },
            count: u32::from_be_bytes([0, self.all[18], self.all[19], self.all[20]]),
            destination: self.all[21],
            source: self.all[22],
        }
    }

    #[tactic(auto, unfolding(chip::specs::Image::state_of))]
    fn status(&self) -> Status
        ensures { result ≡ (state_of self.now).status }
    {
        Status {
            pointer: self.all[25],
            code: self.all[23],
            command: self.all[24],
            lci: self.all[26] == 1,
            pe: self.all[27] == 1,
        }
    }

    fn fifo(&self) -> Fifo
        ensures { result ≡ (state_of self.now).fifo }
    {
        part::get(&self.all[FIFO..LENGTH])
    }

    #[tactic(auto, unfolding(chip::specs::Image::state_of))]
    fn transfer(&self) -> Transfer
        ensures { result ≡ (state_of self.now).transfer }
    {
        Transfer {
            direction: direction_of(self.all[32]),
            single: self.all[33] == 1,
        }
    }

    #[tactic(auto, unfolding(chip::specs::Image::state_of))]
    fn wire(&self) -> Wire
        ensures { result ≡ (state_of self.now).wire }
    {
        Wire {
            connection: connections::connection_of(self.all[30]),
            handshake: Handshake {
                atn: self.all[34] == 1,
                ack: self.all[35] == 1,
            },
            seen: Seen {
                reported: noted_of(self.all[36]),
                last: noted_of(self.all[37]),
            },
            identity: Identity {
                number: self.all[38],
            },
            elapsed: self.all[39],
        }
    }

    #[tactic(auto, unfolding(chip::specs::Image::state_of))]
    fn activity(&self) -> Activity
        ensures { result ≡ (state_of self.now).activity }
    {
        activity::activity_of(self.all[28], self.all[29], self.all[31])
    }

    // The state whose image the bytes are; of bytes that are no image, some state or other.
    #[tactic(auto, unfolding(chip::specs::Image::state_of))]
    pub(crate) fn state(&self) -> State
        ensures { result ≡ state_of self.now }
    {
        State {
            registers: self.registers(),
            status: self.status(),
            fifo: self.fifo(),
            transfer: self.transfer(),
            wire: self.wire(),
            activity: self.activity(),
        }
    }
}

// Bytes 0 to 2 of the image of s.
#[tactic(auto, unfolding(chip::specs::Image::head_bytes))]
fn put_head(s: State, image: &mut [u8])
    requires { length image.old ≡ image_length }
    ensures { image.new ≡ sets image.old 0 (head_bytes s) }
{
    image[0] = s.registers.setup.own;
    image[1] = s.registers.setup.control;
    image[2] = s.registers.setup.timeout;
}

// Bytes 15 to 22: the registers after the command bytes.
#[tactic(auto, unfolding(chip::specs::Image::middle_bytes))]
fn put_registers(s: State, image: &mut [u8])
    requires { length image.old ≡ image_length }
    ensures { image.new ≡ sets image.old 15 (take 8 (middle_bytes s)) }
{
    let [_, high, middle, low] = s.registers.count.to_be_bytes();
    image[15] = s.registers.descriptor.lun;
    image[16] = s.registers.descriptor.phase;
    image[17] = s.registers.setup.synchronous;
    image[18] = high;
    image[19] = middle;
    image[20] = low;
    image[21] = s.registers.destination;
    image[22] = s.registers.source;
}

// Bytes 23 to 29: what the host sees beside them.
#[tactic(auto, unfolding(chip::specs::Image::middle_bytes))]
fn put_status(s: State, image: &mut [u8])
    requires { length image.old ≡ image_length }
    ensures { image.new ≡ sets image.old 23 (take 7 (drop 8 (middle_bytes s))) }
{
    image[23] = s.status.code;
    image[24] = s.status.command;
    image[25] = s.status.pointer;
    image[26] = s.status.lci as u8;
    image[27] = s.status.pe as u8;
    image[28] = activity::pending_number(s.activity);
    image[29] = activity::code_to_come(s.activity);
}

// Bytes 30 to 39: the bus and the running command.
#[tactic(auto, unfolding(chip::specs::Image::middle_bytes))]
fn put_rest(s: State, image: &mut [u8])
    requires { length image.old ≡ image_length }
    ensures { image.new ≡ sets image.old 30 (drop 15 (middle_bytes s)) }
{
    image[30] = s.wire.connection as u8;
    image[31] = activity::running_number(s.activity);
    image[32] = s.transfer.direction as u8;
    image[33] = s.transfer.single as u8;
    image[34] = s.wire.handshake.atn as u8;
    image[35] = s.wire.handshake.ack as u8;
    image[36] = noted_byte(s.wire.seen.reported);
    image[37] = noted_byte(s.wire.seen.last);
    image[38] = s.wire.identity.number;
    image[39] = s.wire.elapsed;
}

// Bytes 15 to 39.
#[tactic(auto, unfolding(chip::specs::Image::middle_bytes))]
fn put_middle(s: State, image: &mut [u8])
    requires { length image.old ≡ image_length }
    ensures { image.new ≡ sets image.old 15 (middle_bytes s) }
{
    put_registers(s, image);
    put_status(s, image);
    put_rest(s, image);
}

// Bytes 0 to 39: all but the FIFO's.
pub(crate) fn put_others(s: State, image: &mut [u8])
    requires { length image.old ≡ image_length }
    ensures { image.new ≡ take fifo_place (image_of s) ++ drop fifo_place image.old }
{
    put_head(s, image);
    image[3..15].copy_from_slice(&s.registers.descriptor.cdb);
    put_middle(s, image);
}

pub(crate) fn put_image(s: State, image: &mut [u8])
    requires { length image.old ≡ image_length }
    ensures { image.new ≡ image_of s }
{
    put_others(s, image);
    store::fifo(s.fifo, image);
}
