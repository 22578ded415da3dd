//! Sizes of terms and how often a part counts in them, cut off at the greatest 32-bit number.

ghost use Rattle.std.specs.Prelude.{◌≡◌, ◌+◌, ◌*◌, max};
ghost use Rattle.term_table.specs.Scale.{joined, sat};

/// The size of a term: its nodes, its bindings, its nodes that no constant term has, and the nodes on its longest way down.
#[derive(Clone, Copy, Drop)]
pub struct Amount {
    pub nodes: u32,
    pub bindings: u32,
    pub free: u32,
    pub depth: u32,
}

/// How a part counts in a term: how often it stands there, and one more than the nodes on the longest way to it
/// (0 where it does not stand there).
#[derive(Clone, Copy, Drop)]
pub struct Weight {
    pub times: u32,
    pub way: u32,
}

/// The way through a to b.
fn join(a: u32, b: u32) -> u32
    ensures { result ≡ sat (joined a b) }
{
    if a == 0 || b == 0 {
        return 0;
    }
    (a - 1).saturating_add(b)
}

impl Amount {
    /// Nothing.
    pub const NONE: Amount = Amount {
        nodes: 0,
        bindings: 0,
        free: 0,
        depth: 0,
    };

    /// Both together: the counts are added, and the depth is the greater one. A number past the greatest u32 stays
    /// there.
    pub fn plus(self, other: Amount) -> Amount
        ensures { result ≡ record { nodes = sat (self.nodes + other.nodes); bindings = sat (self.bindings + other.bindings); free = sat (self.free + other.free); depth = max self.depth other.depth } }
    {
        Amount {
            nodes: self.nodes.saturating_add(other.nodes),
            bindings: self.bindings.saturating_add(other.bindings),
            free: self.free.saturating_add(other.free),
            depth: self.depth.max(other.depth),
        }
    }

    /// As a part that counts so: its counts that often, its depth behind the way to it, 0 where one of these is 0. A
    /// number past the greatest u32 stays there.
    pub fn scaled(self, weight: Weight) -> Amount
        ensures { result ≡ record { nodes = sat (weight.times * self.nodes); bindings = sat (weight.times * self.bindings); free = sat (weight.times * self.free); depth = sat (joined weight.way self.depth) } }
    {
        Amount {
            nodes: weight.times.saturating_mul(self.nodes),
            bindings: weight.times.saturating_mul(self.bindings),
            free: weight.times.saturating_mul(self.free),
            depth: join(weight.way, self.depth),
        }
    }
}

impl Weight {
    /// Where a part stands in both ways: added times, the longer way. A number past the greatest u32 stays there.
    pub fn plus(self, other: Weight) -> Weight
        ensures { result ≡ record { times = sat (self.times + other.times); way = max self.way other.way } }
    {
        Weight {
            times: self.times.saturating_add(other.times),
            way: self.way.max(other.way),
        }
    }

    /// A part of a part: multiplied times, the way through both, 0 where one of these is 0. A number past the greatest
    /// u32 stays there.
    pub fn of(self, inner: Weight) -> Weight
        ensures { result ≡ record { times = sat (self.times * inner.times); way = sat (joined self.way inner.way) } }
    {
        Weight {
            times: self.times.saturating_mul(inner.times),
            way: join(self.way, inner.way),
        }
    }
}
