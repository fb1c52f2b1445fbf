// Translate Address: no two addresses give the same place on a disk. Laws alone: definitions in specs/, proofs in proofs/; no function stands
// here.
#![tactic(auto)]
