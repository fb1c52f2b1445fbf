// The bus events in every state: the definitions of chip's specs/Events.antt.
#![tactic(auto)]

pub mod answer;
pub mod free;
pub mod request;
pub mod reselection;
pub mod time;
