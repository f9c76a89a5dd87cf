// Recorded lookups, replayed over an opened column: a replay under way, a turn at a time. Who has the column's blocks hands each turn its own.
#![tactic(auto)]

pub mod walking;
