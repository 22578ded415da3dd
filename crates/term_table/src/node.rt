//! The nodes of the table.

use lin_truth::VarSort;
use sqlite_items::Items;

/// A node without parts: true, false, a number in lowest terms, or the declared constant at this place.
#[derive(Clone, Copy, Debug, PartialEq, Eq, Drop)]
pub enum Leaf {
    True,
    False,
    Number { num: i64, den: i64 },
    Constant(u32),
}

/// An operator with one part. The number of `Divisible` is no part.
#[derive(Clone, Copy, Debug, PartialEq, Eq, Drop)]
pub enum Unary {
    Negative,
    Abs,
    Not,
    Divisible(u64),
}

/// An operator with two parts.
#[derive(Clone, Copy, Debug, PartialEq, Eq, Drop)]
pub enum Binary {
    Minus,
    Quotient,
    Div,
    Mod,
    Less,
    AtMost,
    Greater,
    AtLeast,
    Equal,
    Xor,
    Implies,
}

/// An operator with any number of parts.
#[derive(Clone, Copy, Debug, PartialEq, Eq, Drop)]
pub enum Variadic {
    Plus,
    Times,
    And,
    Or,
}

/// What a binder says of its variables.
#[derive(Clone, Copy, Debug, PartialEq, Eq, Drop)]
pub enum Quantifier {
    Forall,
    Exists,
}

/// An entry of the table. Parts are named by their places in the table, which are below the entry's own.
#[derive(Debug, Drop)]
pub enum Node {
    Leaf(Leaf),
    /// The parameter with this number, of the definition whose body this stands in.
    Parameter(u32),
    /// The binding at this place among those around, the outermost first; those around a definition's body do not count.
    Binding(u32),
    One(Unary, u32),
    Two(Binary, u32, u32),
    /// The condition, and the parts for true and for false.
    Choice(u32, u32, u32),
    Several(Variadic, Items<u32>),
    /// That no two of the parts are equal, as a conjunction with one negated equation for each pair.
    Distinct(Items<u32>),
    /// A binder below so many bindings around.
    Binder {
        quantifier: Quantifier,
        sorts: Items<VarSort>,
        around: u32,
        body: u32,
    },
    /// A use of a definition with this body.
    Use {
        body: u32,
        args: Items<u32>,
    },
}
