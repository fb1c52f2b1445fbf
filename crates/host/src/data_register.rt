// The Data register (19h), one access at a time.
ghost use Rattle.std.specs.Prelude.{◌≡◌};
ghost use Rattle.chip.specs.Registers.{data_read, data_written};

use chip::{Answer, Direction, Reply, State};

#[tactic(auto, unfolding(chip::specs::Registers::data_read, chip::specs::Choice::pick))]
pub fn data_read(mut s: State) -> Reply
    ensures { result ≡ data_read s }
{
    if s.transfer.direction == Direction::In && count::dbr(s) {
        let byte = fifo::front(s.fifo);
        s.fifo = fifo::pop(s.fifo);
        return answers::says(Answer::Done(byte), interrupts::settled(s));
    }
    answers::says(Answer::NoDataNow, s)
}

#[tactic(auto, unfolding(chip::specs::Registers::data_written, chip::specs::Choice::pick))]
pub fn data_written(b: u8, mut s: State) -> Reply
    ensures { result ≡ data_written b s }
{
    if s.transfer.direction == Direction::Out && count::dbr(s) {
        s.fifo = fifo::push(b, s.fifo);
        return answers::says(Answer::Done(0), s);
    }
    answers::says(Answer::NoDataNow, s)
}
