//! The strategy file, both ways.
#![tactic(auto)]

mod form;
mod line;
mod moves;
mod preorder;
mod proof;
mod section;
mod sections;
mod unique;
mod writing;

// What a file holds.
pub use section::{Section, Sections};

// Reading and writing.
pub use sections::read_file;
pub use strat_words::FileFault;
pub use writing::write_file;

// That a file and its sections give each other.
pub use unique::{one_spelling, one_tree_text, one_value};
