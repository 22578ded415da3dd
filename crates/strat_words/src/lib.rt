//! Texts of lines and words: where a reader stands, and the words and numbers that it takes.
#![tactic(auto)]

mod cursor;
mod fault;
mod number;
mod put;
mod taking;
mod words;

// Where a reader stands, and the faults of its words.
pub use cursor::Cursor;
pub use fault::FileFault;
pub use words::{last_fault, next_fault, start};

// Words and lines.
pub use words::{Word, ends, first, first_is, goes_on, next, next_is, no_more, number_follows};

// Numbers.
pub use taking::{coef, count, index, kept, natural, signed};

// Writing.
pub use put::{put_natural, put_signed};
