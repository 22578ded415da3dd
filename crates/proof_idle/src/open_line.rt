//! Lines that have subproofs left.

/// A line around the one that is read: its number, how many facts stand before it, how many of its subproofs are left
/// behind the one that is read, and whether it is `cases`.
#[derive(Clone, Copy, Drop)]
pub struct OpenLine {
    pub line: u64,
    pub facts: usize,
    pub left: u64,
    pub is_cases: bool,
}
