// The promise: the status that a driver reads belongs to what last happened. Laws alone: definitions in specs/, proofs in proofs/; no
// function stands here.
#![tactic(auto)]
