// A fresh state, connections and activities by their numbers, and the questions that rules ask of what the controller is at.
// Each function is the definition of the same name in chip's specs/.
#![tactic(auto)]

pub mod activity;
pub mod connections;
pub mod fresh;
