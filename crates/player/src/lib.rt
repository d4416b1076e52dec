// What the conformance programs share (docs/CONFORMANCE.md).
#![tactic(auto)]

pub mod digest;
pub mod file;
pub mod lent;
pub mod print;
pub mod runs;
