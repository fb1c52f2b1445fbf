// Transfer Info, and parity: the definitions of chip's specs/TransferInfo.antt. Where a name there begins with transfer_info, the
// room's own name stands for that: `request` is transfer_info_request.
#![tactic(auto)]

ghost use Rattle.std.specs.Prelude.{◌≡◌};
ghost use Rattle.chip.specs.Choice.{both};
ghost use Rattle.chip.specs.Lines.{hsp};
ghost use Rattle.chip.specs.Phases.{is_noted};
ghost use Rattle.chip.specs.TransferInfo.{
  atn_after,
  halted,
  transfer_info_free,
  transfer_info_free_code,
  transfer_info_offered,
  transfer_info_sent,
  transfer_info_over,
  transfer_info_request,
  transfer_info_taken,
  over_code,
  parity_noted,
  taken_in,
};

use answers::says;
use chip::{Answer, Phase, Reply, Request, State};

// A byte whose parity halts the transfer.
#[tactic(auto, unfolding(chip::specs::Choice::both, chip::specs::Lines::hsp))]
pub fn halts(request: Request, s: State) -> bool
    ensures { result ≡ both request.bad (hsp s) }
{
    request.bad && lines::hsp(s)
}

#[tactic(auto, unfolding(chip::specs::TransferInfo::halted, chip::specs::Interrupts::unless_interrupt, chip::specs::Choice::pick))]
pub fn halted(mut s: State) -> Reply
    ensures { result ≡ halted s }
{
    s.status.pe = true;
    s.wire.handshake.ack = true;
    s.wire.seen.reported = None;
    says(Answer::Reported, interrupts::ending_with(0x43, s))
}

#[tactic(auto, unfolding(chip::specs::TransferInfo::parity_noted, chip::specs::Choice::either))]
pub fn parity_noted(request: Request, mut s: State) -> State
    ensures { result ≡ parity_noted request.bad s }
{
    s.status.pe = s.status.pe || request.bad;
    s
}

// The last byte of a Message Out lets ATN go.
#[tactic(auto, unfolding(chip::specs::TransferInfo::atn_after, chip::specs::Choice::pick, chip::specs::Choice::both))]
fn atn_after(p: Phase, s: State) -> bool
    ensures { result ≡ atn_after p s }
{
    s.wire.handshake.atn && !(p == Phase::MessageOut && count::is_last(s))
}

#[tactic(auto, unfolding(chip::specs::TransferInfo::transfer_info_sent, chip::specs::Choice::pick))]
fn sent(p: Phase, s: State) -> Reply
    ensures { result ≡ transfer_info_sent p s }
{
    if fifo::is_empty(s.fifo) {
        return says(Answer::Held, s);
    }
    let mut t = s;
    t.fifo = fifo::pop(s.fifo);
    t = count::lowered(t);
    t.wire.handshake.atn = atn_after(p, s);
    says(Answer::Done(fifo::front(s.fifo)), t)
}

#[tactic(auto, unfolding(chip::specs::TransferInfo::taken_in))]
pub fn taken_in(request: Request, s: State) -> State
    ensures { result ≡ taken_in request.byte request.bad s }
{
    let mut t = parity_noted(request, s);
    t.fifo = fifo::push(request.byte, s.fifo);
    count::lowered(t)
}

// The last byte of a Message In holds ACK, and an ending begins.
#[tactic(auto, unfolding(chip::specs::TransferInfo::transfer_info_taken, chip::specs::Choice::pick, chip::specs::Choice::both, chip::specs::Interrupts::unless_interrupt))]
fn taken(request: Request, s: State) -> Reply
    ensures { result ≡ transfer_info_taken request.phase request.byte request.bad s }
{
    let mut t = taken_in(request, s);
    if request.phase == Phase::MessageIn && count::is_last(s) {
        t.wire.handshake.ack = true;
        t.wire.seen.reported = None;
        t = interrupts::ending_with(0x20, t);
    }
    says(Answer::Done(request.byte), t)
}

#[tactic(auto, unfolding(chip::specs::TransferInfo::transfer_info_offered, chip::specs::Choice::pick, chip::specs::TransferInfo::unless_halted))]
fn offered(request: Request, s: State) -> Reply
    ensures { result ≡ transfer_info_offered request.phase request.byte request.bad s }
{
    if !fifo::has_room(s.fifo) {
        return says(Answer::Held, s);
    }
    if halts(request, s) {
        return halted(s);
    }
    taken(request, s)
}

#[tactic(auto, unfolding(chip::specs::TransferInfo::over_code, chip::specs::Choice::pick))]
fn over_code(p: Phase, s: State) -> u8
    ensures { result ≡ over_code p s }
{
    if count::none_left(s) {
        phases::coded(0x18, p)
    } else {
        phases::coded(0x48, p)
    }
}

#[tactic(auto, unfolding(chip::specs::TransferInfo::transfer_info_over, chip::specs::Interrupts::unless_interrupt, chip::specs::Choice::pick))]
fn over(p: Phase, s: State) -> Reply
    ensures { result ≡ transfer_info_over p s }
{
    let mut t = s;
    t.wire.seen.reported = Some(p);
    says(
        Answer::Reported,
        interrupts::ending_with(over_code(p, s), t),
    )
}

// p is the reported phase.
pub fn is_reported(p: Phase, s: State) -> bool
    ensures { result ≡ is_noted p s.wire.seen.reported }
{
    s.wire.seen.reported == Some(p)
}

// A byte crosses in the phase under transfer, as long as bytes are left.
#[tactic(auto, unfolding(chip::specs::TransferInfo::transfer_info_request, chip::specs::Choice::pick, chip::specs::Choice::both))]
pub fn request(request: Request, s: State) -> Reply
    ensures { result ≡ transfer_info_request request.phase request.byte request.bad s }
{
    let p = request.phase;
    let moves = is_reported(p, s) && !count::none_left(s);
    if !moves {
        return over(p, s);
    }
    if phases::comes_in(p) {
        return offered(request, s);
    }
    sent(p, s)
}

// What a Free does to it. t is s with the bus free.
#[tactic(auto, unfolding(chip::specs::TransferInfo::transfer_info_free, chip::specs::TransferInfo::transfer_info_free_code, chip::specs::Interrupts::unless_interrupt, chip::specs::Choice::pick))]
pub fn free(s: State, t: State) -> Reply
    ensures { result ≡ transfer_info_free s t }
{
    let code = if count::none_left(s) { 0x85 } else { 0x41 };
    says(Answer::Done(0), interrupts::ending_with(code, t))
}
