// How a case is read from text, and how its answer is printed: numbers and lists, the words of a line, and what was lent. It calls no entry point;
// `casebook` does.
#![tactic(auto)]

pub mod answers;
pub mod lent;
pub mod lists;
pub mod output;
pub mod print;
pub mod shares;
pub mod short;
pub mod text;
