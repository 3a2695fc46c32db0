// A sheet that was read.
mod whole;

use crate::heading::Heading;
use book::Call;
pub use whole::read;

#[derive(Drop)]
pub struct Sheet {
    pub heading: Heading,
    pub calls: Vec<Call>,
}
