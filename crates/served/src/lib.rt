// That the chip's step meets the third demand. No code: room story says the demand, proofs/ proves it.
#![tactic(auto)]
