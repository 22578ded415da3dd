//! Which calls of a failing shelf or sink fail.

ghost use Rattle.std.specs.Prelude.{◌≡◌};
ghost use Rattle.ss_shelf.specs.Failing.{is_due, OneMore};

/// The numbers of the calls that are to fail, counted from 0, and how many calls came.
#[derive(Debug, Drop)]
pub struct Turns {
    pub numbers: Vec<u64>,
    pub calls: u64,
}

impl Turns {
    /// No call came yet.
    pub fn new(numbers: Vec<u64>) -> Turns
        ensures numbers { result.numbers.items ≡ numbers.items }
        ensures first { result.calls ≡ 0 }
    {
        Turns { numbers, calls: 0 }
    }

    /// Whether the call that comes now is to fail; it is counted, up to the greatest number of 64 bits.
    pub fn next_is_due(&mut self) -> bool
        ensures due { result ≡ is_due self.old }
        ensures turn { OneMore self.old self.new }
    {
        let is_due = self.numbers.contains(&self.calls);
        self.calls = self.calls.saturating_add(1);
        is_due
    }
}
