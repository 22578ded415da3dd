//! What stays of a proof while its lines are read.

/// An item of the list of what stays, in the order of the lines.
#[derive(Clone, Copy, Drop)]
pub enum Item {
    /// The line of this number, and how many facts stand before it.
    Line(usize, usize),
    /// The line of this number, behind a `cube`: it stays as it is.
    Behind(usize),
    /// A fact that the last line reads.
    Read(u32),
    /// A line that was cut out, with so many facts before it, and so many of the items behind it.
    Hole(usize, usize),
}

/// A line around the one that is read: the place of its item, the place where the items of the subproof begin, how many
/// facts stand before it, and how many of its subproofs are left behind the one that is read.
#[derive(Clone, Copy, Drop)]
pub struct Around {
    pub at: usize,
    pub begin: usize,
    pub facts: usize,
    pub left: u64,
}
