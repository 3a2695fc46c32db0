// A sheet is the text in which a grower hands in a start and a list of calls. Reading it is the inverse of writing it.
#![tactic(auto)]

mod call;
mod cursor;
mod error;
mod field;
mod heading;
mod line;
mod numeral;
mod reading;

pub use call::call_letter;
pub use cursor::Cursor;
pub use error::ReadError;
pub use field::Field;
pub use heading::{EngineChoice, Heading, UnknownEngine};
pub use numeral::number;
pub use reading::{Sheet, read};
