//! What a board keeps of each side: its problem, its versions, its reach, and which versions carry a note.

ghost use Rattle.std.specs.Prelude.{◌≡◌, ◌<◌, ◌≤◌, ◌↔◌, suc, replicate, false, IsTrue, Some, MatchOption, IfOk, OnOk, OnErr, Err, length};
ghost use Rattle.dom_core.specs.Problem.{problem_of};
ghost use Rattle.game_tree.specs.Skeleton.{nodes, node_limit};
ghost use Rattle.game_tree.specs.View.{skeleton_of};
ghost use Rattle.game_tree.specs.Among.{IsAmong};
ghost use Rattle.game_tree.specs.Union.{In};
ghost use Rattle.game_history.specs.History.{SideState, version as version_of, newest_number, first_state};
ghost use Rattle.game_history.specs.Legal.{IsAbove};
ghost use Rattle.game_board.specs.Half.{IsHalfOf, Grows, IsTooLarge, with_reach, with_note};
ghost use Rattle.grown_tree.specs.declared.GrowFault.TheVariants as fault;

use dom_core::{Domain, Problem};
use game_tree::{Skeleton, SkeletonRef};
use grown_tree::{GrowFault, Grown};
use lin_term::Memory;
use sqlite_items::Items;
use std::alloc::Global;

/// A side: the problem in which it is Exists, its versions, the greatest version of the other side that it is known to beat,
/// and for each number whether that version carries a note.
#[derive(Drop)]
pub(crate) struct Half<D: Domain> {
    pub(crate) problem: Problem<D>,
    pub(crate) grown: Grown<D>,
    pub(crate) reach: Option<u32>,
    pub(crate) noted: Items<bool>,
}

impl<D: Domain> Half<D> {
    /// The side of this problem with version 0, no reach and no note, and with room for that many versions behind; refuses
    /// only for memory.
    pub(crate) fn begin(alloc: Global, problem: Problem<D>, rounds: u32) -> Result<Half<D>, Memory>
        requires { rounds ≤ 4096 }
        ensures problem { IfOk result (λ h. h.problem ≡ problem) }
        ensures half { IfOk result (λ h. IsHalfOf h (first_state (problem_of problem))) }
        ensures table { IfOk result (λ h. length h.noted ≡ suc rounds) }
    {
        let _kept = problem.matrix();
        let zero = Skeleton::zero(alloc, problem.prefix())?;
        let grown = Grown::begin(alloc, &zero)?;
        let noted = no_notes(alloc, rounds)?;
        Ok(Half {
            problem,
            grown,
            reach: None,
            noted,
        })
    }

    /// The number of the newest version.
    #[tactic(auto, using(crate::proofs::HalfLemmas::number_is))]
    pub(crate) fn newest_number(&self) -> u32
        ensures { (x : SideState) → IsHalfOf self.now x → result ≡ newest_number x }
    {
        self.grown.last()
    }

    /// Whether a skeleton is this version, as it is written.
    #[tactic(auto, using(crate::proofs::HalfLemmas::version_says, crate::proofs::HalfLemmas::lacks_version))]
    pub(crate) fn is_version(&self, version: u32, other: &SkeletonRef<'_, D>) -> bool
        ensures { (x : SideState) → IsHalfOf self.now x → IsTrue result ↔ (version_of x version ≡ Some (skeleton_of other.now.tree)) }
    {
        match self.grown.view(version) {
            Some(view) => view.is_same(other),
            None => false,
        }
    }

    /// Whether the newest version has every path of a skeleton.
    pub(crate) fn holds(&self, paths: &Skeleton<D>) -> bool
        ensures { (x : SideState) → IsHalfOf self.now x → IsTrue result ↔ In (skeleton_of paths.now.tree) x.newest }
    {
        self.grown.contains(paths)
    }

    /// Whether the version carries a note.
    #[tactic(auto, using(crate::proofs::HalfLemmas::noted_says, crate::proofs::HalfLemmas::none_noted))]
    pub(crate) fn is_noted(&self, version: u32) -> bool
        ensures { (x : SideState) → IsHalfOf self.now x → IsTrue result ↔ IsAmong version x.notes }
    {
        match self.noted.get(version as usize) {
            Some(noted) => *noted,
            None => false,
        }
    }

    /// The reach, where a version of the other side is not above it.
    pub(crate) fn stale_reach(&self, version: u32) -> Option<u32>
        ensures { MatchOption result (IsAbove version self.now.reach) (λ r. (self.now.reach ≡ Some r) × (version ≤ r)) }
    {
        match self.reach {
            Some(reach) => {
                if reach < version {
                    return None;
                }
                Some(reach)
            }
            None => None,
        }
    }

    /// The reach goes to this version.
    pub(crate) fn set_reach(&mut self, version: u32)
        ensures { self.new ≡ with_reach version self.old }
    {
        self.reach = Some(version);
    }

    /// This version carries a note.
    pub(crate) fn mark(&mut self, version: u32)
        requires { version < length self.old.noted }
        ensures { self.new ≡ with_note version self.old }
    {
        self.noted.set(version as usize, true);
    }

    /// The union of the newest version and these paths is the new version, and the reach goes to a version of the other side;
    /// the number of the new version is given. A fault changes nothing: Large names the nodes of the union, more than
    /// 1,048,576.
    pub(crate) fn grow(
        &mut self,
        alloc: Global,
        paths: &Skeleton<D>,
        version: u32,
    ) -> Result<u32, GrowFault>
        requires { self.old.grown.prefix ≡ paths.now.prefix }
        ensures grown { IfOk result (λ made. Grows (skeleton_of paths.now.tree) version made self.old self.new) }
        ensures kept { OnErr result (self.new ≡ self.old) }
        ensures large { (n : _) → result ≡ Err (fault.Large n) → IsTooLarge (skeleton_of paths.now.tree) self.old n }
    {
        match self.grown.grow(alloc, paths) {
            Ok(made) => {
                self.reach = Some(version);
                Ok(made)
            }
            Err(fault) => Err(fault),
        }
    }
}

/// A table in which no version up to this one carries a note; refuses only for memory.
fn no_notes(alloc: Global, last: u32) -> Result<Items<bool>, Memory>
    requires { last ≤ 4096 }
    ensures { IfOk result (λ table. table ≡ replicate (suc last) false) }
{
    let table = Vec::from_elem(alloc, false, last as usize + 1)?;
    Ok(Items::from_vec(table))
}
