// A line of a trim's text: the name that it gives, and its statement with the values of its expressions.
#![tactic(auto)]

pub mod line;
pub mod operands;
pub mod rows;
