// Bitpacked: the distance of each value from the minimum, in steps of the gcd, packed at one width.
#![tactic(auto)]

pub mod reader;
