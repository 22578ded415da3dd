//! The state of a proof: the contexts that wait to be closed. They share one list of facts, which is cut back at the end
//! of a subproof.

ghost use Rattle.std.specs.Prelude.{◌≡◌, ◌≤◌, ◌∷◌, [], ◌++◌, ◌↔◌, take, drop, map, length, true, false, IsTrue, OnOk, IfOk, IfSome, Err};
ghost use Rattle.lin_term.specs.declared.Short.TheVariants.{Fault};
ghost use Rattle.lin_term.specs.declared.Sort.{Sort};
ghost use Rattle.lin_term.specs.declared.Sort.TheVariants.{Int};
ghost use Rattle.cube_rules.specs.Context.{Context, cube_context, with_fact};
ghost use Rattle.cube_rules.specs.Limits.{IsStep};
ghost use Rattle.cube_rules.specs.declared.Rule.{Rule};
ghost use Rattle.lose_system.specs.Written.{WrittenSystem, system_of};

use crate::clause::Clause;
use crate::fact::{Fact, Next};
use crate::left::CasesLeft;
use crate::literals::{known_facts, settled};
use crate::rules::apply;
use cube_rules::{Rule, Step, rule_of_step};
use dom_core::{Domain, Matrix};
use lin_term::{Memory, Short};
use lose_system::System;
use sqlite_items::Items;
use std::alloc::Global;
use std::rc::Rc;

/// What is still to be closed after a closing line.
#[derive(Drop)]
pub enum Rest<'a> {
    /// A subproof for each of these parts of the matrix on a path.
    Children(u32, &'a [Matrix]),
    /// A subproof for each literal of a disjunction, from this place on.
    Literals(Rc<Clause>, usize),
    /// A subproof with this fact.
    Other(Fact<'a>),
    /// A subproof for each case of an elimination.
    Least(CasesLeft),
}

/// The context of a closing line: its facts from `base` to `len`.
#[derive(Drop)]
pub struct Frame<'a> {
    pub base: usize,
    pub len: usize,
    pub bare: bool,
    pub rest: Rest<'a>,
}

/// The contexts of a proof that are still to be closed, once some of its lines are taken. Nothing that a line reads is
/// copied, and memory is that of the lines that still stand.
#[derive(Drop)]
pub struct ProofState<'a> {
    facts: Items<Fact<'a>>,
    base: usize,
    bare: bool,
    closed: bool,
    waiting: Items<Frame<'a>>,
}

/// Cuts the facts back to this length.
fn cut(facts: &mut Items<Fact<'_>>, len: usize)
    ensures { facts.new ≡ take len facts.old }
{
    while facts.len() > len {
        let _ = facts.pop();
    }
}

ghost use Rattle.proof_rules.specs.declared.state.Rest.TheVariants.{Children, Literals};
ghost use Rattle.proof_rules.specs.Rules.{apply as apply_rule};
ghost use Rattle.proof_rules.specs.Stack.{IsState, IsRest, Moved, Settled, rest_of, current_of, stack_of, added, waited};
ghost use Rattle.proof_rules.specs.Held.{fact_of, context_of, next_of, AreFacts, IsFact, IsKeptNext, Leaves};
ghost use Rattle.proof_rules.specs.Left.{left_cases};
ghost use Rattle.proof_rules.specs.Stepping.{IsTaken};

impl<'a> ProofState<'a> {
    /// Before the first line: the empty open context alone.
    pub fn open(alloc: Global) -> ProofState<'a>
        ensures { result ≡ record { facts = []; base = 0; bare = false; closed = false; waiting = [] } }
    {
        ProofState {
            facts: Items::new(alloc),
            base: 0,
            bare: false,
            closed: false,
            waiting: Items::new(alloc),
        }
    }

    /// Whether nothing is left to close.
    pub fn is_closed(&self) -> bool
        ensures value { result ≡ self.now.closed }
        ensures nothing { (s : Sort) (w : WrittenSystem) → IsTrue result ↔ (stack_of s w self.now ≡ []) }
    {
        self.closed
    }

    /// Whether the current context, where there is one, is bare: it takes no path and no definition.
    pub fn is_bare(&self) -> bool
        ensures { result ≡ self.now.bare }
    {
        self.bare
    }

    /// The facts of the current context, where there is one, in order.
    pub fn facts(&self) -> &[Fact<'a>]
        ensures value { result.now ≡ drop self.now.base self.now.facts }
        ensures current { (s : Sort) (w : WrittenSystem) → context_of s w self.now.bare result.now ≡ current_of s w self.now }
    {
        let facts = self.facts.as_slice();
        let base = self.base.min(facts.len());
        &facts[base..]
    }

    /// One more fact in the current context.
    fn add(&mut self, fact: Fact<'a>) -> Result<(), Memory>
        ensures { OnOk result (self.new ≡ added self.old fact.entry) }
    {
        self.facts.push(fact)?;
        Ok(())
    }

    /// What is still to be closed in the current context waits.
    fn wait(&mut self, rest: Rest<'a>) -> Result<(), Memory>
        ensures { OnOk result (self.new ≡ waited self.old rest.entry) }
    {
        let frame = Frame {
            base: self.base,
            len: self.facts.len(),
            bare: self.bare,
            rest,
        };
        self.waiting.push(frame)?;
        Ok(())
    }

    /// The first child is added to the current context, the others wait.
    fn first_child(&mut self, path: u32, parts: &'a [Matrix]) -> Result<(), Memory>
        ensures { (s : Sort) (w : WrittenSystem) → IsState s w self.old → self.old.closed ≡ false → IsRest s w (Children path parts.entry) → OnOk result (Moved s w (rest_of s w (current_of s w self.old) (Children path parts.entry)) self.old self.new) }
    {
        let [first, more @ ..] = parts else {
            return Ok(());
        };
        if more.is_empty() {
            return self.add(Fact::OnPath(path, first));
        }
        self.wait(Rest::Children(path, more))?;
        self.add(Fact::OnPath(path, first))
    }

    /// The literal in this place is added to the current context, those behind it wait.
    fn next_literal(&mut self, clause: Rc<Clause>, place: usize) -> Result<(), Memory>
        ensures { (s : Sort) (w : WrittenSystem) → IsState s w self.old → self.old.closed ≡ false → IsRest s w (Literals clause place) → OnOk result (Moved s w (rest_of s w (current_of s w self.old) (Literals clause place)) self.old self.new) }
    {
        let count = clause.len();
        if place >= count {
            return Ok(());
        }
        let Some(literal) = clause.literal(place)? else {
            return Ok(());
        };
        let behind = place + 1;
        if behind == count {
            return self.add(Fact::Known(literal));
        }
        self.wait(Rest::Literals(clause, behind))?;
        self.add(Fact::Known(literal))
    }

    /// The current context is closed: the next one that waits takes its place.
    fn advance(&mut self, alloc: Global) -> Result<(), Memory>
        ensures { (s : Sort) (w : WrittenSystem) → IsState s w self.old → self.old.closed ≡ false → OnOk result (Moved s w [] self.old self.new) }
    {
        let Some(frame) = self.waiting.pop() else {
            self.closed = true;
            return Ok(());
        };
        let Frame {
            base,
            len,
            bare,
            rest,
        } = frame;
        cut(&mut self.facts, len);
        self.base = base;
        self.bare = bare;
        match rest {
            Rest::Children(path, parts) => self.first_child(path, parts),
            Rest::Literals(clause, place) => self.next_literal(clause, place),
            Rest::Other(fact) => self.add(fact),
            Rest::Least(left) => self.next_case(alloc, left),
        }
    }

    /// These facts alone make the current context.
    fn keep(&mut self, facts: Items<Fact<'a>>) -> Result<(), Memory>
        ensures { (s : Sort) (w : WrittenSystem) → IsState s w self.old → self.old.closed ≡ false → AreFacts s w facts.entry → OnOk result (Moved s w (record { bare = true; facts = map (fact_of s w) facts.entry } ∷ []) self.old self.new) }
    {
        self.base = self.facts.len();
        self.bare = true;
        self.facts.append(facts)?;
        Ok(())
    }

    /// The current context has all these facts; the one that has the last fact waits.
    fn learn(&mut self, facts: Items<Fact<'a>>, fact: Fact<'a>) -> Result<(), Memory>
        ensures { (s : Sort) (w : WrittenSystem) → IsState s w self.old → self.old.closed ≡ false → AreFacts s w facts.entry → IsFact s w fact.entry → OnOk result (Moved s w (record (current_of s w self.old) { facts = (current_of s w self.old).facts ++ map (fact_of s w) facts.entry } ∷ with_fact (current_of s w self.old) (fact_of s w fact.entry) ∷ []) self.old self.new) }
    {
        self.wait(Rest::Other(fact))?;
        self.facts.append(facts)?;
        Ok(())
    }

    /// The next case makes the current context, those behind it wait.
    fn next_case(&mut self, alloc: Global, left: CasesLeft) -> Result<(), Memory>
        ensures { (s : Sort) (w : WrittenSystem) → IsState s w self.old → self.old.closed ≡ false → s ≡ Int → OnOk result (Moved s w (map cube_context (left_cases left)) self.old self.new) }
    {
        let (case, behind) = left.next(alloc)?;
        let facts = known_facts(alloc, case)?;
        match behind {
            Some(more) => {
                self.wait(Rest::Least(more))?;
                self.keep(facts)
            }
            None => self.keep(facts),
        }
    }

    /// The contexts that a line leaves take the place of the current one.
    fn take(&mut self, alloc: Global, next: Next<'a>) -> Result<(), Memory>
        ensures { (s : Sort) (w : WrittenSystem) → IsState s w self.old → self.old.closed ≡ false → IsKeptNext s w next.entry → OnOk result (Moved s w (next_of s w (current_of s w self.old) next.entry) self.old self.new) }
    {
        match next {
            Next::Goes(fact) => self.add(fact),
            Next::Cases(path, parts) => {
                if parts.is_empty() {
                    self.advance(alloc)
                } else {
                    self.first_child(path, parts)
                }
            }
            Next::Literals(clause) => {
                if clause.len() == 0 {
                    self.advance(alloc)
                } else {
                    self.next_literal(clause, 0)
                }
            }
            Next::Split(first, second) => {
                self.wait(Rest::Other(Fact::Known(second)))?;
                self.add(Fact::Known(first))
            }
            Next::Learn(facts, fact) => self.learn(facts, fact),
            Next::Cube(facts) => self.keep(facts),
            Next::Least(left) => self.next_case(alloc, left),
            Next::Closed => self.advance(alloc),
        }
    }

    /// The last fact is built, where it is a literal of the matrix on a path.
    fn settle<D: Domain>(&mut self, alloc: Global, system: &System<'a, D>) -> Result<(), Memory>
        requires { IsState D.SORT system.now self.old }
        ensures { OnOk result (Settled D.SORT system.now self.old self.new) }
    {
        let Some(fact) = self.facts.pop() else {
            return Ok(());
        };
        let built = settled(alloc, system, fact)?;
        self.add(built)
    }

    /// The contexts that a line leaves take the place of the current one, and its new fact is built.
    fn take_next<D: Domain>(
        &mut self,
        alloc: Global,
        system: &System<'a, D>,
        next: Next<'a>,
    ) -> Result<(), Memory>
        requires kept { IsState D.SORT system.now self.old }
        requires going { self.old.closed ≡ false }
        requires next { IsKeptNext D.SORT system.now next }
        ensures { OnOk result (Moved D.SORT system.now (next_of D.SORT system.now (current_of D.SORT system.now self.old) next.entry) self.old self.new) }
    {
        self.take(alloc, next)?;
        self.settle(alloc, system)
    }

    /// What a line leaves of the current context.
    fn next<D: Domain>(
        &self,
        alloc: Global,
        system: &System<'a, D>,
        step: &Step,
    ) -> Result<Option<Next<'a>>, Memory>
        requires { IsState D.SORT system.now self.now }
        ensures leaves { IfOk result (λ o. Leaves D.SORT system.now (current_of D.SORT system.now self.now) (apply_rule D.SORT (system_of D.SORT system.now) (current_of D.SORT system.now self.now) step.now) o) }
        ensures step { IfOk result (λ o. IfSome o (λ _. IsStep step.now)) }
    {
        apply(alloc, system, self.bare, self.facts(), step)
    }

    /// Takes a line of the proof, exactly as its rule does. Where the line breaks its rule, or nothing is left to close,
    /// which breaks rule Form, the state is as before. It refuses else only for memory, and then the state is of no use
    /// any more.
    pub fn step<D: Domain>(
        &mut self,
        alloc: Global,
        system: &System<'a, D>,
        step: &Step,
    ) -> Result<(), Short<Rule>>
        requires { IsState D.SORT system.now self.old }
        ensures taken { IsTaken (apply_rule D.SORT (system_of D.SORT system.now)) (stack_of D.SORT system.now self.old) step.now (stack_of D.SORT system.now self.new) result }
        ensures kept { OnOk result (IsState D.SORT system.now self.new) }
        ensures before { (r : Rule) → result ≡ Err (Fault r) → self.new ≡ self.old }
        // The numbers of a line that is taken are those that a file can hold.
        ensures step { OnOk result (IsStep step.now) }
    {
        if self.closed {
            return Err(Short::Fault(Rule::Form));
        }
        match self.next(alloc, system, step) {
            Ok(Some(next)) => match self.take_next(alloc, system, next) {
                Ok(()) => Ok(()),
                Err(_) => Err(Short::Memory),
            },
            Ok(None) => Err(Short::Fault(rule_of_step(step))),
            Err(_) => Err(Short::Memory),
        }
    }
}
