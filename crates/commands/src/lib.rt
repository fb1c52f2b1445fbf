// Commands: accepting, ignoring, 40h, and what each does. The definitions of chip's specs/Commands.antt.
#![tactic(auto)]

pub mod accept;
pub mod act;

ghost use Rattle.std.specs.Prelude.{◌≡◌};
ghost use Rattle.chip.specs.Commands.{carried_out, commanded};

use crate::accept::Asked;
use chip::{Answer, Command, Reply, State};

// Codes stay numbers, as in the definition: an enum of them would need a match from the byte with the same lines again.
#[tactic(auto, unfolding(chip::specs::Commands::carried_out, chip::specs::Choice::pick))]
fn carried_out(n: u8, single: bool, mut s: State) -> State
    ensures { result ≡ carried_out n single s }
{
    match n {
        0x01 => act::aborted(s),
        0x02 => {
            s.wire.handshake.atn = true;
            s
        }
        0x03 => {
            s.wire.handshake.ack = false;
            s
        }
        0x04 => act::disconnected(s),
        0x06 => act::selecting(Command::SelectWithAtn, s),
        0x07 => act::selecting(Command::SelectWithoutAtn, s),
        0x08 => act::select_and_transfer_begun(Command::SelectAndTransferWithAtn, s),
        0x09 => act::select_and_transfer_begun(Command::SelectAndTransferWithoutAtn, s),
        0x0f => {
            s.registers.setup.control = lines::with_idi(s.registers.setup.control);
            s
        }
        0x18 => translate::translated(s),
        0x20 => act::transfer_info_begun(single, s),
        _ => s,
    }
}

// A write of b to the command register.
#[tactic(auto, unfolding(chip::specs::Commands::is_valid, chip::specs::Commands::is_refused_busy, chip::specs::Commands::commanded, chip::specs::Choice::pick))]
pub fn commanded(b: u8, s: State) -> Reply
    ensures { result ≡ commanded b s }
{
    let asked = Asked::of(lines::code_of(b));
    if asked.code == 0x00 {
        return answers::says(Answer::Done(0), act::reset(b, s));
    }
    if interrupts::interrupted(s) || asked.is_refused_busy(s) {
        return answers::ignored(s);
    }
    let t = accept::accepted(b, s);
    if asked.is_valid(s) {
        return answers::says(
            Answer::Done(0),
            carried_out(asked.code, lines::is_single(b), t),
        );
    }
    answers::says(Answer::Done(0), interrupts::interrupt(0x40, t))
}
