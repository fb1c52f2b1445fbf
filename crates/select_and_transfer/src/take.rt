// The bytes that a Select-And-Transfer takes in beside data, and what it does not take.
ghost use Rattle.std.specs.Prelude.{◌≡◌};
ghost use Rattle.chip.specs.Answers.{done};
ghost use Rattle.chip.specs.TransferInfo.{unless_halted};
ghost use Rattle.chip.specs.SelectAndTransfer.{take_complete, take_identify, take_message, take_status, unexpected};

use answers::says;
use chip::{Answer, Phase, Reply, Request, State};

#[tactic(auto, unfolding(chip::specs::SelectAndTransfer::unexpected))]
pub fn unexpected(p: Phase, mut s: State) -> Reply
    ensures { result ≡ unexpected p s }
{
    s.wire.seen.reported = Some(p);
    says(
        Answer::Reported,
        interrupts::ending_with(phases::coded(0x48, p), s),
    )
}

// The byte is taken in, and t is the state after it, unless its parity halts the transfer.
#[tactic(auto, unfolding(chip::specs::TransferInfo::unless_halted, chip::specs::Choice::pick))]
pub(crate) fn unless_halted(request: Request, s: State, t: State) -> Reply
    ensures { result ≡ unless_halted request.bad s (done request.byte t) }
{
    if transfer_info::halts(request, s) {
        return transfer_info::halted(s);
    }
    says(Answer::Done(request.byte), t)
}

#[tactic(auto, unfolding(chip::specs::SelectAndTransfer::take_status))]
pub fn status(request: Request, s: State) -> Reply
    ensures { result ≡ take_status request.byte request.bad s }
{
    let mut t = interrupts::outgoing_dropped(transfer_info::parity_noted(request, s));
    t.registers.descriptor.lun = request.byte;
    t.registers.descriptor.phase = 0x50;
    unless_halted(request, s, t)
}

// Save Data Pointer (02) or Disconnect (04).
#[tactic(auto, unfolding(chip::specs::SelectAndTransfer::take_message, chip::specs::SelectAndTransfer::take_save, chip::specs::SelectAndTransfer::take_disconnect, chip::specs::Choice::pick))]
pub fn message(request: Request, s: State) -> Reply
    ensures { result ≡ take_message request.byte request.bad s }
{
    let mut t = transfer_info::parity_noted(request, s);
    match request.byte {
        0x02 => {
            t.registers.descriptor.phase = 0x41;
            t.wire.handshake.ack = true;
            t.wire.seen.reported = None;
            t = interrupts::ending_with(0x21, t);
        }
        0x04 => t.registers.descriptor.phase = 0x42,
        _ => return unexpected(Phase::MessageIn, s),
    }
    unless_halted(request, s, t)
}

// Only the Identify of the logical unit that the command is for.
#[tactic(auto, unfolding(chip::specs::SelectAndTransfer::take_identify, chip::specs::Choice::pick, chip::specs::Choice::both))]
pub fn identify(request: Request, s: State) -> Reply
    ensures { result ≡ take_identify request.phase request.byte request.bad s }
{
    let ours = lines::identify(lines::lun_of(s), false);
    if request.phase != Phase::MessageIn || request.byte != ours {
        return unexpected(request.phase, s);
    }
    let mut t = transfer_info::parity_noted(request, s);
    t.registers.descriptor.phase = 0x45;
    unless_halted(request, s, t)
}

// Command Complete (00).
#[tactic(auto, unfolding(chip::specs::SelectAndTransfer::take_complete, chip::specs::SelectAndTransfer::completed, chip::specs::Choice::pick, chip::specs::Choice::both))]
pub fn complete(request: Request, s: State) -> Reply
    ensures { result ≡ take_complete request.phase request.byte request.bad s }
{
    if request.phase != Phase::MessageIn || request.byte != 0x00 {
        return unexpected(request.phase, s);
    }
    let mut t = transfer_info::parity_noted(request, s);
    t.registers.descriptor.phase = 0x60;
    t.wire.seen.reported = None;
    unless_halted(request, s, interrupts::ending_with(0x16, t))
}
