// The walk's lowest layer: the cursor, claims, and values that lead to nothing else.
#![tactic(auto)]

pub mod claims;
pub mod cursor;
pub mod planned;
pub mod scalars;
pub mod strict_rows;
