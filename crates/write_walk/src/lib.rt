// The writer's upper layer: the functions that call each other.
#![tactic(auto)]

pub mod cycle;
