// The one-at-a-time engine: one transaction has the turn, and the others wait until it has ended.
#![tactic(auto)]

mod engine;
mod moves;
mod refusals;
mod seats;
mod serial;
mod state;
mod steps;

pub use serial::Serial;

#[cfg(test)]
mod tests;
