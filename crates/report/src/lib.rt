// What a program tells of case files: of each its valuation and the numbers by which an office knows its case again, the text that is printed
// of one and of several, and the status that the program ends with.
#![tactic(auto)]

pub mod input;
pub mod numbers;
pub mod shown;
pub mod text;
