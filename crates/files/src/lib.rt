// Embosser files: written from the output of `emboss` and read back. What is lent is judged byte by
// byte, and any bytes, sizes and room get their answer. What each call means is said in specs/ of
// embosser.

#![tactic(auto)]

mod charting;
mod filing;
mod judging;

pub use filing::{read_file, write_file};
