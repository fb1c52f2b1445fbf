// What holds of every state that calls reach from the fresh one. No code: specs/ says the facts, proofs/ proves that each call keeps them.
#![tactic(auto)]
