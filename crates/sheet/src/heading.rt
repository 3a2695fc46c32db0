// The first line of a sheet: which engine plays it, and what the engine starts with.
mod engine;
mod reading;

use book::Value;
pub use engine::UnknownEngine;

#[derive(Clone, Copy, Debug, PartialEq, Eq)]
pub enum EngineChoice {
    Pessimistic,
    Serial,
}

#[derive(Drop)]
pub struct Heading {
    pub engine: EngineChoice,
    pub version: u32,
    pub cells: Vec<Value>,
}
