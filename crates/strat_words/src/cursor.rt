//! Where a reader stands.

ghost use Rattle.std.specs.Prelude.{◌<◌, ◌≤◌, ◌+◌, ◌^◌, length};

/// A place in a text: the bytes still to come, the line (from 1), and how many words of it
/// were taken.
#[derive(Clone, Copy)]
pub struct Cursor<'a> {
    pub rest: &'a [u8],
    pub line: u64,
    pub word: u64,
    ghost line_fits: { line + length rest.now ≤ 2 ^ 63 },
    ghost word_fits: { word + length rest.now < 2 ^ 63 },
}
