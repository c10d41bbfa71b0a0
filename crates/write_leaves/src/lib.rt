// The writer's lowest layer: the cursor, and values that lead to nothing else.
#![tactic(auto)]

pub mod cursor;
pub mod planned;
pub mod scalars;
pub mod strict_rows;
