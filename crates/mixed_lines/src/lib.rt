// The lines of the program mixed: those of a list of calls read, and those of the results printed. The head of
// tests/src/emit.rs has both formats.
#![tactic(auto)]

pub mod input;
pub mod print;
#[cfg(test)]
mod tests;
pub mod words;
