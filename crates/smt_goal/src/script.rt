//! What a script asks.

ghost use Rattle.std.specs.Prelude.{◌≡◌, ◌<◌, length, map, Ok};
ghost use Rattle.term_table.specs.Meaning.{meanings};
ghost use Rattle.smt_goal.specs.Script.{all_sized, questions, read};
ghost use Rattle.smt_goal.specs.Session.{state_seen, asked_at, RootsIn, IsReady};
ghost use Rattle.smt_goal.specs.Answer.{Answers, AllGoals, IsFormedBody, AllFormed, GivesGoal, GivesGoals};

use crate::obey::all_commands;
use crate::session::{Question, Session};
use lin_term::Sort;
use lin_truth::Goal;
use smt_term::bad;
use sqlite_items::Items;
use ss_names::{FaultKind, ScriptFault};
use std::alloc::Global;
use std::marker::Model;
use term_table::Table;

// The greatest size of a goal.
const MOST_NODES: u32 = 1_048_576;

const MOST_DEPTH: u32 = 1_024;

const MOST_VARIABLES: usize = 1_024;

/// What a script asks: the sort of its logic, and one goal for each check-sat, in order.
#[derive(Drop)]
pub struct Script {
    sort: Sort,
    goals: Vec<Goal>,
}

impl Model for Script {
    ghost use Rattle.lin_truth.specs.contracts.Term as t;
    ghost use Rattle.std.specs.Coded.{codes};
    ghost use Rattle.smt_goal.specs.Answer.{Asking, AllGoals};

    ghost Value = { Asking };

    ghost coded = { Prim.hlevel (codes, t.the_row.coded) };

    ghost view = { λ s. record { sort = s.sort; goals = s.goals.items } };

    ghost invariant = { λ s. AllGoals s.goals.items };
}

impl Script {
    /// The script of this sort and these goals, each of which is well formed.
    pub fn make(sort: Sort, goals: Vec<Goal>) -> Script
        requires { AllGoals goals.items }
        ensures { result ≡ record { sort = sort; goals = goals.items } }
    {
        Script { sort, goals }
    }

    /// The sort of the numbers; of a script that was read, Int for LIA and QF_LIA, and else Rat.
    pub fn sort(&self) -> Sort
        ensures { result ≡ self.now.sort }
    {
        self.sort
    }

    /// The goals in order, each well formed; of a script that was read, one for each check-sat.
    pub fn goals(&self) -> &[Goal]
        ensures goals { result.now ≡ self.now.goals }
        ensures formed { AllGoals result.now }
    {
        self.goals.as_slice()
    }
}

// The goal of a check-sat. The place of a fault is that of the check-sat.
fn goal_of(alloc: Global, table: &Table, question: &Question) -> Result<Goal, ScriptFault>
    requires root { question.now.root < length table.now }
    requires formed { IsFormedBody (asked_at (meanings table.now) question.now) }
    ensures { GivesGoal (asked_at (meanings table.now) question.now) result }
{
    let size = table.size(question.root);
    if size.nodes > MOST_NODES || size.depth > MOST_DEPTH {
        return Err(bad(FaultKind::Size, question.line, question.column));
    }
    let count = question.consts.len();
    if count > MOST_VARIABLES || count + size.bindings as usize > MOST_VARIABLES {
        return Err(bad(FaultKind::Variables, question.line, question.column));
    }
    let body = match table.tree(question.root, count as u32) {
        Ok(body) => body,
        Err(_) => return Err(ScriptFault::Memory),
    };
    let consts = match Items::from_slice(alloc, question.consts.as_slice()) {
        Ok(consts) => consts,
        Err(_) => return Err(ScriptFault::Memory),
    };
    Ok(Goal::make(question.sort, question.line, question.column, consts, body))
}

// The goals of the check-sats, or the first fault.
fn goals_of(alloc: Global, table: &Table, questions: &[Question]) -> Result<Vec<Goal>, ScriptFault>
    requires roots { RootsIn (length table.now) questions.now }
    requires formed { AllFormed (map (asked_at (meanings table.now)) questions.now) }
    ensures { GivesGoals (map (asked_at (meanings table.now)) questions.now) result }
{
    let mut goals = Vec::new(alloc);
    for i in 0..questions.len() {
        let goal = match goal_of(alloc, table, &questions[i]) {
            Ok(goal) => goal,
            Err(fault) => return Err(fault),
        };
        match goals.push(goal) {
            Ok(_) => {}
            Err(_) => return Err(ScriptFault::Memory),
        }
    }
    Ok(goals)
}

// What a script asks, once all its commands were read.
fn script_of(alloc: Global, session: Session<'_>) -> Result<Script, ScriptFault>
    requires ready { IsReady session }
    requires formed { AllFormed (state_seen session).goals }
    ensures { Answers (all_sized (state_seen session.entry).goals (Ok (questions (state_seen session.entry)))) result }
{
    let goals = match goals_of(alloc, &session.reader.table, session.goals.as_slice()) {
        Ok(goals) => goals,
        Err(fault) => return Err(fault),
    };
    Ok(Script::make(session.reader.logic, goals))
}

/// What a script asks, or its first fault with its kind and place, exactly as the definition of reading says; want of
/// memory alone is free. On Ok the script was read to its end, or to its `exit`. Each goal is well formed, has no more than
/// 1,048,576 nodes, is no deeper than 1,024 nodes, and has no more than 1,024 variables.
pub fn read_script(alloc: Global, bytes: &[u8]) -> Result<Script, ScriptFault>
    ensures { Answers (read bytes.now) result }
{
    let session = match all_commands(alloc, bytes) {
        Ok(session) => session,
        Err(fault) => return Err(fault),
    };
    script_of(alloc, session)
}
