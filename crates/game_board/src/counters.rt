//! Counters that are published, and what comes of them.

ghost use Rattle.std.specs.Prelude.{◌≡◌, ◌≤◌, ◌<◌, ◌↔◌, ◌⊎◌, if◌then◌else◌, IsTrue, Bool, true, false, None, Some, IfOk, OnErr, MatchOption, length};
ghost use Rattle.game_tree.specs.View.{skeleton_of};
ghost use Rattle.game_tree.specs.Skeleton.{node_limit};
ghost use Rattle.game_tree.specs.Union.{In};
ghost use Rattle.game_history.specs.History.{of_side, newest_number};
ghost use Rattle.game_history.specs.Legal.{IsAbove};
ghost use Rattle.grown_tree.specs.declared.GrowFault.TheVariants as fault;
ghost use Rattle.game_board.specs.declared.entry.Entry.TheVariants as entry;
ghost use Rattle.game_board.specs.Board.{problem_on, state_of, with_entry};
ghost use Rattle.game_board.specs.Replies.{IsUndecided, AttacksVersion, IsFresh, IsNews, joint_nodes, Publishes, RaisesReach};

use crate::board::Board;
use crate::entry::Entry;
use crate::reply::Published;
use dom_core::{Domain, Side};
use grown_tree::GrowFault;
use lin_term::Memory;
use std::alloc::Global;
use term_select::Counter;

impl<D: Domain> Board<D> {
    /// Whether the counter is of the board's problem for its side, and against this version of the other side as it is.
    fn is_attack(&self, counter: &Counter<D>, version: u32) -> bool
        ensures { IsTrue result ↔ AttacksVersion D.SORT self.now counter.now version }
    {
        let side = counter.side();
        if !self.halves.of(side).problem.is_same(counter.problem()) {
            return false;
        }
        self.halves
            .of(side.other())
            .is_version(version, &counter.against().lend())
    }

    /// A counter against a version of the other side is published. Over: a verdict stands. Foreign: the counter is of another
    /// problem, there is no such version, or the counter is against another skeleton. Stale: the version is at most the reach
    /// of the counter's side, which is carried. These change nothing. Held: every path is in the newest version of the side;
    /// one entry is added, and the reach rises to the version. Spent: the added entries are as many as the budget. TooLarge:
    /// the union with the newest version has the carried number of nodes, more than 1,048,576. The first of each of these two
    /// adds one entry, later ones nothing. Added: the union is the new version of the carried number; one entry is added, and
    /// the reach rises to the version. The first that fits in this order is given. Want of memory changes nothing.
    pub fn publish(
        &mut self,
        alloc: Global,
        counter: Counter<D>,
        version: u32,
    ) -> Result<Published, Memory>
        ensures published { IfOk result (λ r. Publishes D.SORT self.old counter version r self.new) }
        ensures raises { IfOk result (λ r. RaisesReach D.SORT self.old counter.side version r self.new) }
        ensures kept { OnErr result (self.new ≡ self.old) }
    {
        self.placed(alloc, counter, version)
    }

    /// The same; that a reach rises follows.
    fn placed(
        &mut self,
        alloc: Global,
        counter: Counter<D>,
        version: u32,
    ) -> Result<Published, Memory>
        ensures published { IfOk result (λ r. Publishes D.SORT self.old counter version r self.new) }
        ensures kept { OnErr result (self.new ≡ self.old) }
    {
        if self.is_over() {
            return Ok(Published::Over);
        }
        if !self.is_attack(&counter, version) {
            return Ok(Published::Foreign);
        }
        if let Some(reach) = self.halves.of(counter.side()).stale_reach(version) {
            return Ok(Published::Stale { reach });
        }
        self.place(alloc, counter, version)
    }

    /// The same of a counter that attacks a version above the reach, in an open game.
    fn place(
        &mut self,
        alloc: Global,
        counter: Counter<D>,
        version: u32,
    ) -> Result<Published, Memory>
        requires { IsFresh D.SORT self.old counter version }
        ensures published { IfOk result (λ r. Publishes D.SORT self.old counter version r self.new) }
        ensures kept { OnErr result (self.new ≡ self.old) }
    {
        if self.holds(&counter) {
            self.hold(counter, version);
            return Ok(Published::Held);
        }
        if self.added >= self.rounds {
            self.spend(counter, version);
            return Ok(Published::Spent);
        }
        self.add(alloc, counter, version)
    }

    /// Whether every path of a counter of the board's problem is in the newest version of its side.
    fn holds(&self, counter: &Counter<D>) -> bool
        ensures held { IsTrue result → In (skeleton_of counter.now.paths.tree) (of_side counter.now.side (state_of D.SORT self.now)).newest }
        ensures news { result ≡ false → IsNews D.SORT self.now counter.now }
    {
        self.halves.of(counter.side()).holds(counter.paths())
    }

    /// The reach rises to the version that the counter attacks.
    fn hold(&mut self, counter: Counter<D>, version: u32)
        requires fresh { IsFresh D.SORT self.old counter version }
        requires held { In (skeleton_of counter.paths.tree) (of_side counter.side (state_of D.SORT self.old)).newest }
        ensures { self.new ≡ with_entry self.old (entry.Held counter.side version counter.paths) }
    {
        let side = counter.side();
        let paths = counter.into_paths();
        self.halves.set_reach(side, version);
        let entry = Entry::Held {
            side,
            version,
            paths,
        };
        self.history.push_reserved(entry);
    }

    /// The budget is spent; the first time an entry says so.
    fn spend(&mut self, counter: Counter<D>, version: u32)
        requires fresh { IsFresh D.SORT self.old counter version }
        requires news { IsNews D.SORT self.old counter }
        requires spent { (state_of D.SORT self.old).rounds ≡ self.old.rounds }
        ensures { self.new ≡ (if (state_of D.SORT self.old).is_spent then self.old else with_entry self.old (entry.Spent counter.side version counter.paths)) }
    {
        if self.spent {
            return;
        }
        let side = counter.side();
        let paths = counter.into_paths();
        self.spent = true;
        let entry = Entry::Spent {
            side,
            version,
            paths,
        };
        self.history.push_reserved(entry);
    }

    /// The union is the new version, or too large.
    fn add(&mut self, alloc: Global, counter: Counter<D>, version: u32) -> Result<Published, Memory>
        requires fresh { IsFresh D.SORT self.old counter version }
        requires news { IsNews D.SORT self.old counter }
        requires left { (state_of D.SORT self.old).rounds < self.old.rounds }
        ensures published { IfOk result (λ r. Publishes D.SORT self.old counter version r self.new) }
        ensures kept { OnErr result (self.new ≡ self.old) }
    {
        let side = counter.side();
        match self.halves.grow(alloc, side, counter.paths(), version) {
            Ok(made) => {
                let paths = counter.into_paths();
                self.added += 1;
                let entry = Entry::Added {
                    side,
                    version,
                    paths,
                    made,
                };
                self.history.push_reserved(entry);
                Ok(Published::Added(made))
            }
            Err(fault) => self.refused(counter, version, fault),
        }
    }

    /// There is no further version: the union has too many nodes, or memory is wanting.
    fn refused(
        &mut self,
        counter: Counter<D>,
        version: u32,
        why: GrowFault,
    ) -> Result<Published, Memory>
        requires fresh { IsFresh D.SORT self.old counter version }
        requires news { IsNews D.SORT self.old counter }
        requires left { (state_of D.SORT self.old).rounds < self.old.rounds }
        requires large { (n : _) → why ≡ fault.Large n → (n ≡ joint_nodes D.SORT self.old counter) × (node_limit < n) }
        ensures published { IfOk result (λ r. Publishes D.SORT self.old counter version r self.new) }
        ensures kept { OnErr result (self.new ≡ self.old) }
    {
        match why {
            GrowFault::Large { nodes } => {
                self.outgrow(counter, version, nodes);
                Ok(Published::TooLarge { nodes })
            }
            GrowFault::Memory => Err(Memory),
        }
    }

    /// The union has too many nodes; the first time an entry says so.
    fn outgrow(&mut self, counter: Counter<D>, version: u32, nodes: u64)
        requires fresh { IsFresh D.SORT self.old counter version }
        requires news { IsNews D.SORT self.old counter }
        requires left { (state_of D.SORT self.old).rounds < self.old.rounds }
        requires joint { nodes ≡ joint_nodes D.SORT self.old counter }
        requires large { node_limit < nodes }
        ensures { self.new ≡ (if (state_of D.SORT self.old).is_large then self.old else with_entry self.old (entry.TooLarge counter.side version counter.paths nodes)) }
    {
        if self.large {
            return;
        }
        let side = counter.side();
        let paths = counter.into_paths();
        self.large = true;
        let entry = Entry::TooLarge {
            side,
            version,
            paths,
            nodes,
        };
        self.history.push_reserved(entry);
    }
}
