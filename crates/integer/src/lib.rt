// Whole numbers as the rest of the program needs them: arithmetic that gives
// the exact result or none, and numbers of four bytes in a slice. No function
// asks anything of its caller, so each is right for every argument.
#![tactic(auto)]

pub mod checked;
pub mod fields;
