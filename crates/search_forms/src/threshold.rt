//! A threshold of a form.

/// form >= num/den, or form > num/den where it is strict. The rank is its place among those of the form, ascending.
#[derive(Clone, Copy, Debug, PartialEq, Eq)]
pub struct Threshold {
    pub form: u32,
    pub rank: u32,
    pub num: i64,
    /// 1 or more.
    pub den: i64,
    pub strict: bool,
}
