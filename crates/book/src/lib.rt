// A cell book: its vocabulary, its meaning, what an engine of it promises, and the law of every list of calls.
#![tactic(auto)]

mod answer;
mod call;
mod engine;
mod refusal;
mod runner;
mod seat;
mod write;
mod write_set;

pub use answer::{Answer, Standing, Word};
pub use call::{Call, Kind, Value};
pub use engine::{Engine, MAX_CELLS, MAX_NUMBER, SEATS};
pub use refusal::Refusal;
pub use runner::{call_on, run};
pub use seat::Seat;
pub use write::Write;
pub use write_set::{MAX_WRITES, WriteSet};
