// Select-And-Transfer by its phase register: the definitions of chip's specs/SelectAndTransfer.antt. Where a name there begins with
// select_and_transfer, the room's own name stands for that: `request` is select_and_transfer_request. In all files of this room the phase
// register is written and asked by its numbers, and resume.rt says why.
#![tactic(auto)]

pub mod free;
pub mod resume;
pub mod stage;
pub mod take;

ghost use Rattle.std.specs.Prelude.{◌≡◌, ◌<◌};
ghost use Rattle.select_and_transfer.specs.Sendable.{Sendable};
ghost use Rattle.chip.specs.SelectAndTransfer.{
  body_request,
  late_request,
  phase_after,
  request_at,
  send_command,
  send_data,
  send_identify,
  take_data,
  select_and_transfer_request,
};

use answers::says;
use chip::{Answer, Direction, Phase, Reply, Request, Stage, State};

#[tactic(auto, unfolding(chip::specs::SelectAndTransfer::send_identify, chip::specs::Choice::pick))]
fn send_identify(p: Phase, mut s: State) -> Reply
    ensures { result ≡ send_identify p s }
{
    if p != Phase::MessageOut {
        return take::unexpected(p, s);
    }
    let byte = lines::identify(lines::lun_of(s), lines::er(s));
    s.wire.handshake.atn = false;
    s.registers.descriptor.phase = 0x20;
    says(Answer::Done(byte), s)
}

// x is how many command bytes were taken, so it is below the longest command's 12.
#[tactic(auto, unfolding(chip::specs::SelectAndTransfer::send_command, chip::specs::Choice::pick))]
fn send_command(x: u8, p: Phase, s: State) -> Reply
    requires { x < 12 }
    ensures { result ≡ send_command x p s }
{
    if p != Phase::CommandOut {
        return take::unexpected(p, s);
    }
    // A copy of the command bytes: an index into the state itself would keep all of it in memory.
    let cdb = s.registers.descriptor.cdb;
    let mut t = s;
    t.registers.descriptor.phase = 0x31 + x;
    says(Answer::Done(cdb[x as usize]), t)
}

#[tactic(auto, unfolding(chip::specs::SelectAndTransfer::phase_after, chip::specs::Choice::pick))]
fn phase_after(s: State) -> u8
    ensures { result ≡ phase_after s }
{
    if count::is_last(s) {
        0x46
    } else {
        s.registers.descriptor.phase
    }
}

#[tactic(auto, unfolding(chip::specs::SelectAndTransfer::send_data, chip::specs::Choice::pick))]
fn send_data(s: State) -> Reply
    ensures { result ≡ send_data s }
{
    if fifo::is_empty(s.fifo) {
        return says(Answer::Held, s);
    }
    let mut t = s;
    t.fifo = fifo::pop(s.fifo);
    t = count::lowered(t);
    t.registers.descriptor.phase = phase_after(s);
    says(Answer::Done(fifo::front(s.fifo)), t)
}

#[tactic(auto, unfolding(chip::specs::SelectAndTransfer::take_data, chip::specs::Choice::pick))]
fn take_data(request: Request, s: State) -> Reply
    ensures { result ≡ take_data request.byte request.bad s }
{
    if !fifo::has_room(s.fifo) {
        return says(Answer::Held, s);
    }
    let mut t = transfer_info::taken_in(request, s);
    t.transfer.direction = Direction::In;
    t.registers.descriptor.phase = phase_after(s);
    take::unless_halted(request, s, t)
}

// After data only Status or Message In comes.
#[tactic(auto, unfolding(chip::specs::SelectAndTransfer::late_request))]
fn late_request(request: Request, s: State) -> Reply
    ensures { result ≡ late_request request.phase request.byte request.bad s }
{
    match request.phase {
        Phase::StatusIn => take::status(request, s),
        Phase::MessageIn => take::message(request, s),
        p => take::unexpected(p, s),
    }
}

// The first Data Request fixes the direction. Going out it is Reported and offered again: this alone changes the state here, so it alone
// copies it.
#[tactic(auto, unfolding(chip::specs::SelectAndTransfer::body_request, chip::specs::SelectAndTransfer::unless_none_left, chip::specs::SelectAndTransfer::data_out, chip::specs::SelectAndTransfer::data_in, chip::specs::Choice::pick))]
fn body_request(request: Request, s: State) -> Reply
    ensures { result ≡ body_request request.phase request.byte request.bad s }
{
    let expects_data = !count::none_left(s);
    match (request.phase, s.transfer.direction) {
        (Phase::DataOut, Direction::Unfixed) if expects_data => {
            let mut t = s;
            t.transfer.direction = Direction::Out;
            says(Answer::Reported, t)
        }
        (Phase::DataOut, Direction::Out) if expects_data => send_data(s),
        (Phase::DataIn, Direction::Unfixed | Direction::In) if expects_data => take_data(
            request, s,
        ),
        (Phase::StatusIn, _) => take::status(request, s),
        (Phase::MessageIn, _) => take::message(request, s),
        (p, _) => take::unexpected(p, s),
    }
}

#[tactic(auto, unfolding(chip::specs::SelectAndTransfer::request_at))]
fn request_at(stage: Stage, request: Request, s: State) -> Reply
    requires { Sendable stage }
    ensures { result ≡ request_at stage request.phase request.byte request.bad s }
{
    match stage {
        Stage::SendIdentify => send_identify(request.phase, s),
        Stage::SendCommand(x) => send_command(x, request.phase, s),
        Stage::Body => body_request(request, s),
        Stage::AfterData => late_request(request, s),
        Stage::Reselected => take::identify(request, s),
        Stage::AfterStatus => take::complete(request, s),
        Stage::Disconnecting | Stage::Elsewhere => take::unexpected(request.phase, s),
    }
}

#[tactic(auto, unfolding(chip::specs::SelectAndTransfer::select_and_transfer_request))]
pub fn request(request: Request, s: State) -> Reply
    ensures { result ≡ select_and_transfer_request request.phase request.byte request.bad s }
{
    request_at(stage::stage(s), request, s)
}
