//! Tables of words.

ghost use Rattle.std.specs.Prelude.{IsTrue};
ghost use Rattle.ss_names.specs.Words.{is_table};

/// A table of N distinct words, each with a code. Contracts see its `words` and its `codes`.
#[derive(Clone, Copy)]
pub struct Names<const N: usize> {
    // the words, one behind the other
    pub(crate) text: &'static str,
    // how many bytes each has
    pub(crate) lens: [usize; N],
    pub(crate) codes: [u32; N],
    ghost table: { IsTrue (is_table lens text.now) },
}
