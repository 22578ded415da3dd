//! Linear rows as a search reads them: whole numbers of 64 bits, each operation checked, no condition on any call.
#![tactic(auto)]

mod atom;
mod blend;
mod elimination;
mod stuck;

pub use atom::{Atom, AtomKind};
pub use blend::{add, blended, primitive};
pub use elimination::{Elimination, Level, Numbered, Sum, fourier_motzkin};
pub use stuck::Stuck;
