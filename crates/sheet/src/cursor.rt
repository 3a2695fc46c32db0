mod moves;
mod places;

ghost use Rattle.std.specs.Prelude.{◌+◌, ◌≤◌, length};

// A place in a sheet that is lent, with the number of the line that the place is on, counted from 1.
#[derive(Drop)]
pub struct Cursor<'a> {
    sheet: &'a [u8],
    place: usize,
    line: usize,
    ghost within: { place ≤ length sheet.now },
    // each line feed that was passed is one of the bytes that were passed
    ghost counted: { line ≤ place + 1 },
}
