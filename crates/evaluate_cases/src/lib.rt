// Small models, and what the crates `model` and `evaluate` make of them: at the edges of numbers,
// tables, arrays and sets, and for words that keep no model at all.
#![tactic(auto)]

#[cfg(test)]
mod builder;
#[cfg(test)]
mod conditions;
#[cfg(test)]
mod constraints;
#[cfg(test)]
mod decoders;
#[cfg(test)]
mod nesting;
#[cfg(test)]
mod numbers;
#[cfg(test)]
mod sums;
#[cfg(test)]
mod symbols;
