// The lines of a sheet: the reader that walks them, the call that a line yields, and the line of an answer.
#![tactic(auto)]

pub mod answers;
pub mod calls;
pub mod reader;
