// Text: rows of numbers put into a line, which is written at once, and the lines of standard input.
#![tactic(auto)]

mod program;
mod row;
mod stdin;
mod stdout;

pub use program::{run, run_cut};
pub use row::put_row;
pub use stdin::{End, Piece, Reader, no_command};
pub use stdout::{Line, Stop, ended, print};

#[cfg(test)]
mod tests;
