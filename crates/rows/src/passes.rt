// The finishing passes over a buffer of rows.
// A pass takes a buffer and how many of its rows count, as the calls of the documents do: which of the two is wrong is a refusal. A struct of
// both would hold the buffer to be written, and each pass would take it apart again.
pub mod finish;
pub mod fixup;
pub mod fragments;
pub mod halt;
pub mod helper_column;
pub mod multiplicity;
mod nested;
