// What no sequence of calls can do to a status that nobody has read, and why a code is raised. Laws alone: definitions in specs/,
// proofs in proofs/; no function stands here.
#![tactic(auto)]
