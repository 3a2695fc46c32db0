// What the program says of a sheet: one function from the bytes of the sheet to the text of the answer.
#![tactic(auto)]

mod answer;
mod summary;

pub use answer::of_sheet;

#[cfg(test)]
mod tests;
