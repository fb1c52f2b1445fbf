// One story, two hosts: the third demand as a predicate of a step. No code: specs/ says what the Target, the hosts and a schedule are;
// proofs/ computes a run of each host and refutes the demand of wrong steps. Room served proves it of the chip's step.
#![tactic(auto)]
