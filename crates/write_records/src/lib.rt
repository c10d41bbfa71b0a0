// The writer's middle layer: records up to the object that they lead to, and envelopes.
#![tactic(auto)]

pub mod envelopes;
pub mod records;
