// Laws of the FIFO's keeping: where its bytes stand is told to nobody, and nothing that a caller is told has changed since they moved up
// at each read. No code: specs/ says the laws, proofs/ proves them of chip's `step` and refutes them of wrong steps.
#![tactic(auto)]
