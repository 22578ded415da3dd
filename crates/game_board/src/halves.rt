//! Both sides of a board.

ghost use Rattle.std.specs.Prelude.{◌≡◌, ◌<◌, IfOk, OnErr, Err, length};
ghost use Rattle.dom_core.specs.Sides.{other};
ghost use Rattle.game_tree.specs.View.{skeleton_of};
ghost use Rattle.game_board.specs.Half.{half_of, with_half, with_reach, with_note, Grows, IsTooLarge};
ghost use Rattle.grown_tree.specs.declared.GrowFault.TheVariants as fault;

use crate::half::Half;
use dom_core::{Domain, Side};
use game_tree::Skeleton;
use grown_tree::GrowFault;
use std::alloc::Global;

/// Both sides.
#[derive(Drop)]
pub(crate) struct Halves<D: Domain> {
    pub(crate) exists: Half<D>,
    pub(crate) forall: Half<D>,
}

impl<D: Domain> Halves<D> {
    /// The half of this side.
    pub(crate) fn of(&self, side: Side) -> &Half<D>
        ensures { result.now ≡ half_of side self.now }
    {
        match side {
            Side::Exists => &self.exists,
            Side::Forall => &self.forall,
        }
    }

    /// The side's reach goes to a version of the other side.
    pub(crate) fn set_reach(&mut self, side: Side, version: u32)
        ensures { self.new ≡ with_half side (with_reach version (half_of side self.old)) self.old }
    {
        match side {
            Side::Exists => self.exists.set_reach(version),
            Side::Forall => self.forall.set_reach(version),
        }
    }

    /// The side's version carries a note.
    pub(crate) fn mark(&mut self, side: Side, version: u32)
        requires { version < length (half_of side self.old).noted }
        ensures { self.new ≡ with_half side (with_note version (half_of side self.old)) self.old }
    {
        match side {
            Side::Exists => self.exists.mark(version),
            Side::Forall => self.forall.mark(version),
        }
    }

    /// One more version of the side, as `Half::grow` says.
    pub(crate) fn grow(
        &mut self,
        alloc: Global,
        side: Side,
        paths: &Skeleton<D>,
        version: u32,
    ) -> Result<u32, GrowFault>
        requires { (half_of side self.old).grown.prefix ≡ paths.now.prefix }
        ensures grown { IfOk result (λ made. Grows (skeleton_of paths.now.tree) version made (half_of side self.old) (half_of side self.new)) }
        ensures rest { IfOk result (λ _. half_of (other side) self.new ≡ half_of (other side) self.old) }
        ensures kept { OnErr result (self.new ≡ self.old) }
        ensures large { (n : _) → result ≡ Err (fault.Large n) → IsTooLarge (skeleton_of paths.now.tree) (half_of side self.old) n }
    {
        match side {
            Side::Exists => self.exists.grow(alloc, paths, version),
            Side::Forall => self.forall.grow(alloc, paths, version),
        }
    }
}
