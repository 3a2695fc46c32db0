// A value that was put to a cell.
use crate::call::Value;

#[derive(Clone, Copy, Debug, PartialEq, Eq)]
pub struct Write {
    pub cell: u32,
    pub value: Value,
}
