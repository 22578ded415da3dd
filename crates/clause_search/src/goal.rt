//! What the plain search has taken, and what is left.

ghost use Rattle.std.specs.Prelude.{◌≡◌, ◌<◌, ◌∷◌, ◌++◌, [], ℕ, suc, length, get_or, IfOk};
ghost use Rattle.clause_search.specs.declared.goal.Part.{Part as a_part};

use dom_core::Matrix;
use lin_term::Memory;
use sqlite_items::Items;
use std::alloc::Global;

/// A fact that is a part of the matrix on a path, negated and over the path's nodes, and its number.
#[derive(Clone, Copy, Drop)]
pub struct Part<'a> {
    pub number: u32,
    pub path: u32,
    pub matrix: &'a Matrix,
}

/// A context of the search: how many facts it has, the first path that is not among them, the facts that are not taken apart
/// yet, and the facts that are literals.
#[derive(Drop)]
pub struct Goal<'a> {
    pub count: u32,
    pub next: u32,
    pub waiting: Items<Part<'a>>,
    pub lits: Items<Part<'a>>,
}

/// One more; past 32 bits it is want of memory.
pub fn one_more(number: u32) -> Result<u32, Memory>
    ensures { IfOk result (λ n. n ≡ suc number) }
{
    if number == u32::MAX {
        return Err(Memory);
    }
    Ok(number + 1)
}

/// The part at a place.
pub fn part_at<'a>(parts: &'a [Matrix], place: usize) -> &'a Matrix
    requires { place < length parts.now }
    ensures { result.now ≡ get_or parts.now place result.now }
{
    &parts[place]
}

impl<'a> Goal<'a> {
    /// Nothing is taken.
    pub fn start(alloc: Global) -> Goal<'a>
        ensures { result ≡ record { count = 0; next = 0; waiting = []; lits = [] } }
    {
        Goal {
            count: 0,
            next: 0,
            waiting: Items::new(alloc),
            lits: Items::new(alloc),
        }
    }

    /// The goal with one fact more that is still to be taken apart: a part of the matrix on the path.
    pub fn with_part(
        &self,
        alloc: Global,
        path: u32,
        matrix: &'a Matrix,
    ) -> Result<Goal<'a>, Memory>
        ensures { IfOk result (λ g. g ≡ record { count = suc self.now.count; next = self.now.next; waiting = self.now.waiting ++ (record { number = self.now.count; path = path; matrix = matrix.entry }) ∷ []; lits = self.now.lits }) }
    {
        let count = one_more(self.count)?;
        let mut waiting = Items::from_slice(alloc, self.waiting.as_slice())?;
        let lits = Items::from_slice(alloc, self.lits.as_slice())?;
        waiting.push(Part {
            number: self.count,
            path,
            matrix,
        })?;
        Ok(Goal {
            count,
            next: self.next,
            waiting,
            lits,
        })
    }
}
