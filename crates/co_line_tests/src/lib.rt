//! The lines of a source, lent out of a buffer of one line. What is read and what is refused is shown by the rows of
//! `co_line_rows`, and how items are written by the cases of `co_conform`.
#![tactic(auto)]

#[cfg(test)]
mod reader;
