// A model worked out from its words, for given values of its variables.
//
// Numbers and conditions by the indexes in force, linear sums and constraints by the values too.
// Everything is exact: where a number on the way is 2^62 or more in size there is no result. What
// each function answers is what the meaning of the model says, step by step.
#![tactic(auto)]

pub mod conditions;
pub mod constraints;
pub mod numbers;
mod site;
pub mod sums;
