// Laws of single calls, from every state: what each answer leaves, which answers a call can get, what is silent, what a block is,
// when the count falls. No code: specs/ says the laws, proofs/ proves them of chip's `step` and refutes them of wrong steps.
#![tactic(auto)]
