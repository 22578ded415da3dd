//! Commands that set the logic and declare constants, and `exit`.

ghost use Rattle.std.specs.Prelude.{◌≡◌, ◌∷◌, [], length, map, true, Ok};
ghost use Rattle.smt_lex.specs.Place.{place};
ghost use Rattle.smt_term.specs.Word as word;
ghost use Rattle.smt_term.specs.View.{part, part_seen};
ghost use Rattle.smt_term.specs.Newest.{IsName};
ghost use Rattle.smt_goal.specs.Command.{sort_or_rat};
ghost use Rattle.smt_goal.specs.Command as spec;
ghost use Rattle.smt_goal.specs.Session.{state_seen, IsReady, Obeys};

use crate::info::fault_at;
use crate::session::Session;
use crate::setting::logic_named;
use lin_truth::VarSort;
use smt_term::{Part, bad, new_name, part_of, sort_of};
use smt_tree::Expr;
use ss_names::{FaultKind, ScriptFault};
use symbol_table::Known;
use term_table::{Leaf, Node};

impl<'a> Session<'a> {
    /// The name that an expression declares, where the names of the session are taken.
    pub fn new_name(&self, part: Part<'_, 'a>) -> Result<&'a [u8], ScriptFault>
        requires { IsReady self.now }
        ensures { IsName (word.new_name (sort_or_rat (state_seen self.now).logic) (state_seen self.now).names (part_seen part.entry)) result }
    {
        new_name(self.reader.logic, &self.reader.names, part)
    }

    // Adds a constant of this name and sort.
    fn declare(&mut self, name: &'a [u8], sort: VarSort) -> Result<(), ScriptFault>
        requires { IsReady self.old }
        ensures { Obeys (Ok (spec.with_constant (state_seen self.old) name.entry.now sort)) result self.new }
    {
        let place = self.consts.len();
        if place >= 4_294_967_295 {
            return Err(ScriptFault::Memory);
        }
        let node = match self
            .reader
            .table
            .add(Node::Leaf(Leaf::Constant(place as u32)))
        {
            Ok(node) => node,
            Err(_) => return Err(ScriptFault::Memory),
        };
        let known = Known {
            sort,
            node,
            signature: 0,
        };
        match self.reader.names.push(name, known) {
            Ok(_) => {}
            Err(_) => return Err(ScriptFault::Memory),
        }
        match self.consts.push(sort) {
            Ok(_) => {}
            Err(_) => return Err(ScriptFault::Memory),
        }
        Ok(())
    }

    // A name and a sort.
    fn declare_as(&mut self, name: Part<'_, 'a>, sort: Part<'_, 'a>) -> Result<(), ScriptFault>
        requires { IsReady self.old }
        ensures { Obeys (spec.declare_const (state_seen self.old) (place 0 0) (part_seen name.entry ∷ part_seen sort.entry ∷ [])) result self.new }
    {
        let name = match self.new_name(name) {
            Ok(name) => name,
            Err(fault) => return Err(fault),
        };
        let sort = match sort_of(self.reader.logic, sort) {
            Ok(sort) => sort,
            Err(fault) => return Err(fault),
        };
        self.declare(name, sort)
    }

    /// `(declare-const s S)`, from what stands behind the head.
    pub fn declare_const(
        &mut self,
        items: &[Expr<'a>],
        line: u64,
        column: u64,
    ) -> Result<(), ScriptFault>
        requires { IsReady self.old }
        ensures { Obeys (spec.declare_const (state_seen self.old) (place line column) (map part items.now)) result self.new }
    {
        if items.len() != 2 {
            return Err(bad(FaultKind::Arity, line, column));
        }
        self.declare_as(part_of(&items[0]), part_of(&items[1]))
    }

    // A name, what stands for its parameters, and a sort.
    fn declare_bare(
        &mut self,
        name: Part<'_, 'a>,
        params: Part<'_, 'a>,
        sort: Part<'_, 'a>,
    ) -> Result<(), ScriptFault>
        requires ready { IsReady self.old }
        requires none { spec.has_no_items (part_seen params) ≡ true }
        ensures { Obeys (spec.declare_fun (state_seen self.old) (place 0 0) (part_seen name.entry ∷ part_seen params.entry ∷ part_seen sort.entry ∷ [])) result self.new }
    {
        let name = match self.new_name(name) {
            Ok(name) => name,
            Err(fault) => return Err(fault),
        };
        if !is_group(params) {
            return Err(fault_at(FaultKind::Sort, params));
        }
        let sort = match sort_of(self.reader.logic, sort) {
            Ok(sort) => sort,
            Err(fault) => return Err(fault),
        };
        self.declare(name, sort)
    }

    /// `(declare-fun s () S)`, from what stands behind the head.
    pub fn declare_fun(
        &mut self,
        items: &[Expr<'a>],
        line: u64,
        column: u64,
    ) -> Result<(), ScriptFault>
        requires { IsReady self.old }
        ensures { Obeys (spec.declare_fun (state_seen self.old) (place line column) (map part items.now)) result self.new }
    {
        if items.len() != 3 {
            return Err(bad(FaultKind::Arity, line, column));
        }
        let params = part_of(&items[1]);
        if !has_no_items(params) {
            return Err(bad(FaultKind::Arity, line, column));
        }
        self.declare_bare(part_of(&items[0]), params, part_of(&items[2]))
    }

    /// `(set-logic L)`, from what stands behind the head.
    pub fn set_logic(
        &mut self,
        items: &[Expr<'a>],
        line: u64,
        column: u64,
    ) -> Result<(), ScriptFault>
        requires { IsReady self.old }
        ensures { Obeys (spec.set_logic (state_seen self.old) (place line column) (map part items.now)) result self.new }
    {
        if items.len() != 1 {
            return Err(bad(FaultKind::Arity, line, column));
        }
        let logic = match logic_named(part_of(&items[0])) {
            None => return Err(fault_at(FaultKind::Logic, part_of(&items[0]))),
            Some(logic) => logic,
        };
        self.logic = Some(logic);
        self.reader.logic = logic;
        Ok(())
    }

    /// `(exit)`, from what stands behind the head.
    pub fn exit(&mut self, items: &[Expr<'a>], line: u64, column: u64) -> Result<(), ScriptFault>
        requires { IsReady self.old }
        ensures { Obeys (spec.exit_of (state_seen self.old) (place line column) (map part items.now)) result self.new }
    {
        if !items.is_empty() {
            return Err(bad(FaultKind::Arity, line, column));
        }
        self.ended = true;
        Ok(())
    }
}

fn has_no_items(part: Part<'_, '_>) -> bool
    ensures { result ≡ spec.has_no_items (part_seen part.entry) }
{
    match part {
        Part::Token(_) => true,
        Part::Group(_, _, items) => items.is_empty(),
    }
}

fn is_group(part: Part<'_, '_>) -> bool
    ensures { result ≡ spec.is_group (part_seen part.entry) }
{
    match part {
        Part::Token(_) => false,
        Part::Group(_, _, _) => true,
    }
}
