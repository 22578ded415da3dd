//! Words and their rows.

ghost use Rattle.std.specs.Prelude.{◌≡◌, ◌<◌, ◌↔◌, ℕ, Some, IsTrue, codes as bytes_of, position, slice_index, ◌∷◌, [], length};
ghost use Rattle.std.specs.Str.{bytes_eq};
ghost use Rattle.std.specs.List.{position_from};
ghost use Rattle.ss_names.specs.Words.{is_table, words_of, total, IsRowOf};
ghost use Rattle.ss_names.specs.Table.{words};

use crate::table::Names;

// The first row of the word among those that a text is cut into.
fn row_among(mut text: &[u8], mut lens: &[usize], word: &[u8]) -> Option<usize>
    requires { total lens.now ≡ length text.now }
    ensures { result ≡ position_from (λ known. bytes_eq known word.now) 0 (words_of lens.entry.now text.entry.now) }
{
    let mut row = 0;
    while let [len, more @ ..] = lens {
        let (known, rest) = text.split_at(*len);
        if known == word {
            return Some(row);
        }
        row += 1;
        text = rest;
        lens = more;
    }
    None
}

impl<const N: usize> Names<N> {
    /// The table of the words that a text is cut into, at these lengths in bytes, and their codes: as many words as rows.
    /// The lengths must sum up to that of the text, and no two words may be the same.
    pub fn new(text: &'static str, lens: [usize; N], codes: [u32; N]) -> Names<N>
        requires { IsTrue (is_table lens text.now) }
        ensures words { words result ≡ words_of lens.entry text.now }
        ensures codes { result.codes ≡ codes.entry }
    {
        Names { text, lens, codes }
    }

    /// The row of the word; None exactly where no row has it.
    pub fn find(&self, word: &str) -> Option<usize>
        ensures value { result ≡ position (λ known. bytes_eq known word.now) (words self.now) }
        ensures exact { (row : ℕ) → (result ≡ Some row) ↔ IsRowOf row word.now (words self.now) }
    {
        self.find_bytes(word.as_bytes())
    }

    /// The row of the word whose bytes these are; None exactly where no row has it.
    pub fn find_bytes(&self, word: &[u8]) -> Option<usize>
        ensures value { result ≡ position (λ known. bytes_eq known word.now) (words self.now) }
        ensures exact { (row : ℕ) → (result ≡ Some row) ↔ IsRowOf row word.now (words self.now) }
    {
        row_among(self.text.as_bytes(), &self.lens, word)
    }

    /// The code of a row; the row must be below N.
    pub fn code(&self, row: usize) -> u32
        requires { row < N }
        ensures { result ≡ slice_index self.now.codes row }
    {
        self.codes[row]
    }
}
