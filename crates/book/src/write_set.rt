mod access;

ghost use Rattle.std.specs.Prelude.{◌≡◌, ◌≤◌, true, length};
ghost use Rattle.book.specs.Distinct.{distinct};
ghost use Rattle.book.specs.Sizes.{max_writes};
ghost use Rattle.fixed_vec.specs.Listed.{places};

use crate::write::Write;
use fixed_vec::FixedVec;

// The most cells that one transaction may put.
pub const MAX_WRITES: usize = 16;

// The puts of one transaction: one entry a cell, in order of first put, each with the value put last.
#[derive(Clone, Copy)]
pub struct WriteSet {
    writes: FixedVec<Write, MAX_WRITES>,
    ghost whole: { length (places writes) ≡ max_writes },
    ghost few: { length writes.items ≤ max_writes },
    ghost apart: { distinct writes.items ≡ true },
}
