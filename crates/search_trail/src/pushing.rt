//! Literals pushed onto the trail and taken back. A push covers a range of ranks of its form, whose truths it settles; what
//! was false among leaves is propagated later. A literal that contradicts one in force is a conflict at once.

use crate::conflict::{Conflict, Halt, How};
use crate::search::{Entry, Search};
use search_forms::{Code, Forms, Known, Setup, Truth};
use search_rows::Stuck;
use search_simplex::{Bound, NONE, at, item, lent, put, size};

/// The ranks from one to the one behind another, and what their thresholds become.
#[derive(Clone, Copy, Debug, PartialEq, Eq)]
struct Range {
    form: u32,
    from: u32,
    to: u32,
    truth: Truth,
}

/// What the definitions of rounded moves ask for.
#[derive(Clone, Copy, Debug, PartialEq, Eq)]
enum Awaited {
    Move(u32),
    Definition(u32, u32),
}

/// Settles the truths of a range; the places of literals that become false are noted.
fn cover(forms: &mut Forms, events: &mut Vec<u32>, range: Range) -> Result<(), Stuck> {
    for rank in range.from..range.to {
        let mark = at(forms.form(range.form)?.order.as_slice(), rank)?;
        put(&mut forms.truths, mark, range.truth)?;
        let side: u32 = if range.truth == Truth::True { 1 } else { 0 };
        let fallen = mark
            .checked_mul(2)
            .ok_or(Stuck::Place)?
            .checked_add(side)
            .ok_or(Stuck::Place)?;
        events.extend_from_slice(item(forms.uses.as_slice(), fallen)?.as_slice())?;
    }
    Ok(())
}

/// Opens the truths of a range again.
fn uncover(forms: &mut Forms, range: Range) -> Result<(), Stuck> {
    for rank in range.from..range.to {
        let mark = at(forms.form(range.form)?.order.as_slice(), rank)?;
        put(&mut forms.truths, mark, Truth::Open)?;
    }
    Ok(())
}

/// The bound that a literal sets: the number and the infinitesimals.
fn bound_of(forms: &Forms, code: Code, is_int: bool) -> Result<(i64, i64, i64), Stuck> {
    let mark = forms.threshold(code / 2)?;
    let low = code % 2 == 0;
    if is_int {
        if low {
            return Ok((mark.num, 1, 0));
        }
        return Ok((mark.num.checked_sub(1).ok_or(Stuck::Wide)?, 1, 0));
    }
    let eps = if low {
        if mark.strict { 1 } else { 0 }
    } else if mark.strict {
        0
    } else {
        -1
    };
    Ok((mark.num, mark.den, eps))
}

impl Search {
    /// The oldest trail place that makes a literal false, none where no bound does.
    pub fn oldest_false(&self, code: Code) -> Result<u32, Stuck> {
        let mark = self.forms.threshold(code / 2)?;
        let form = self.forms.form(mark.form)?;
        let low = code % 2 == 0;
        let mut best = NONE;
        let mut place = if low { form.high } else { form.low };
        for _ in 0..self.trail.entries.len() {
            if place == NONE {
                return Ok(best);
            }
            let entry = self.entry(place)?;
            let rank = self.forms.rank_of(entry.code)?;
            let makes = if low {
                rank <= mark.rank
            } else {
                rank >= mark.rank
            };
            if !makes {
                return Ok(best);
            }
            best = place;
            place = entry.prev;
        }
        Ok(best)
    }

    /// The range of ranks that a literal settles over the bound that stood before.
    fn range(&self, code: Code, prev: u32) -> Result<Range, Stuck> {
        let mark = self.forms.threshold(code / 2)?;
        let low = code % 2 == 0;
        let before = if prev == NONE {
            NONE
        } else {
            self.forms.rank_of(self.code_at(prev)?)?
        };
        let count = size(self.forms.form(mark.form)?.order.len())?;
        if low {
            let from = if before == NONE {
                0
            } else {
                before.wrapping_add(1)
            };
            return Ok(Range {
                form: mark.form,
                from,
                to: mark.rank.checked_add(1).ok_or(Stuck::Place)?,
                truth: Truth::True,
            });
        }
        Ok(Range {
            form: mark.form,
            from: mark.rank,
            to: if before == NONE { count } else { before },
            truth: Truth::False,
        })
    }

    /// Sets the bound in force of a form; gives the place of the one before.
    fn set_form(&mut self, code: Code, place: u32, mark: u32) -> Result<u32, Stuck> {
        let form = self.forms.form_of(code)?;
        let found = lent(&mut self.forms.list, form)?;
        if code % 2 == 0 {
            let prev = found.low;
            found.low = place;
            found.low_mark = mark;
            return Ok(prev);
        }
        let prev = found.high;
        found.high = place;
        found.high_mark = mark;
        Ok(prev)
    }

    /// One more place of the trail.
    fn add_entry(&mut self, code: Code, how: How, live: bool) -> Result<u32, Stuck> {
        let place = size(self.trail.entries.len())?;
        let level = self.level();
        self.trail.entries.push(Entry {
            code,
            prev: NONE,
            level,
            how,
            live,
            old: None,
        })?;
        self.pushes = self.pushes.wrapping_add(1);
        Ok(place)
    }

    /// Sets the tableau's bound for a literal.
    fn set_tableau(&mut self, form: u32, code: Code, place: u32) -> Result<(), Stuck> {
        let column = self.column_of(form)?;
        let (num, den, eps) = bound_of(&self.forms, code, self.setup.is_int())?;
        let low = code % 2 == 0;
        let old = self.tableau.set_bound(column, low, num, den, eps, place)?;
        lent(&mut self.trail.entries, place)?.old = old;
        Ok(())
    }

    /// Pushes a literal.
    pub fn push(&mut self, code: Code, how: How) -> Result<(), Halt> {
        match self.forms.truth(code)? {
            Truth::True => Ok(()),
            Truth::False => self.push_false(code, how),
            Truth::Open => self.push_open(code, how),
        }
    }

    /// A literal that is false is a conflict.
    fn push_false(&mut self, code: Code, how: How) -> Result<(), Halt> {
        let against = self.oldest_false(code)?;
        let place = self.add_entry(code, how, false)?;
        Err(Halt::Conflict(Conflict::Two(place, against)))
    }

    /// Pushes a literal that is open, and what the rounded moves of its form ask for.
    fn push_open(&mut self, code: Code, how: How) -> Result<(), Halt> {
        let form = self.push_bound(code, how)?;
        if form == NONE {
            return Ok(());
        }
        let mut work: Vec<Awaited> = Vec::new(self.alloc);
        self.await_moves(form, &mut work)?;
        self.do_all(work)
    }

    /// Pushes a literal that is open; gives its form where the rounded moves of that are to be looked at, else none.
    fn push_bound(&mut self, code: Code, how: How) -> Result<u32, Stuck> {
        let form = self.forms.form_of(code)?;
        let place = self.add_entry(code, how, true)?;
        let prev = self.set_form(code, place, code / 2)?;
        lent(&mut self.trail.entries, place)?.prev = prev;
        let range = self.range(code, prev)?;
        cover(&mut self.forms, &mut self.trail.events, range)?;
        if self.is_divisibility(form)? {
            return Ok(NONE);
        }
        self.set_tableau(form, code, place)?;
        Ok(if self.setup.is_int() { form } else { NONE })
    }

    /// Whether a node is a move whose definition is not in force.
    fn is_waiting(&self, node: u32) -> Result<bool, Stuck> {
        Ok(at(self.columns.active.as_slice(), node)? == NONE && self.setup.is_move(node)?)
    }

    /// The rounded moves of a form are to be looked at, the first on top.
    fn await_moves(&self, form: u32, work: &mut Vec<Awaited>) -> Result<(), Stuck> {
        let terms = self.forms.form(form)?.terms.as_slice();
        for place in (0..terms.len()).rev() {
            let node = at_place(terms, place)?;
            if self.is_waiting(node)? {
                work.push(Awaited::Move(node))?;
            }
        }
        Ok(())
    }

    /// All work, from the top down; it may ask for more.
    fn do_all(&mut self, given: Vec<Awaited>) -> Result<(), Halt> {
        let mut work = given;
        for _ in 0..u64::MAX {
            let Some(next) = work.pop() else {
                return Ok(());
            };
            match next {
                Awaited::Move(node) => self.note_active(node, &mut work)?,
                Awaited::Definition(node, which) => self.push_definition(node, which, &mut work)?,
            }
        }
        Err(Halt::Stuck(Stuck::Fuel))
    }

    /// A rounded move gets its definition.
    pub fn activate(&mut self, node: u32) -> Result<(), Halt> {
        let mut work: Vec<Awaited> = Vec::new(self.alloc);
        work.push(Awaited::Move(node))?;
        self.do_all(work)
    }

    /// The definition of a rounded move is to be pushed.
    fn note_active(&mut self, node: u32, work: &mut Vec<Awaited>) -> Result<(), Stuck> {
        if self.is_waiting(node)? {
            let place = size(self.trail.entries.len())?;
            put(&mut self.columns.active, node, place)?;
            work.push(Awaited::Definition(node, 1))?;
            work.push(Awaited::Definition(node, 0))?;
        }
        Ok(())
    }

    /// Pushes one part of a move's definition; what that asks for is added to the work.
    fn push_definition(
        &mut self,
        node: u32,
        which: u32,
        work: &mut Vec<Awaited>,
    ) -> Result<(), Halt> {
        let how = How::Def(node, which);
        match definition_code(&mut self.forms, &self.setup, node, which)? {
            Known::True => Ok(()),
            Known::False | Known::Unset => Err(Halt::Stuck(Stuck::Place)),
            Known::Lit(code) => match self.forms.truth(code)? {
                Truth::True => Ok(()),
                Truth::False => self.push_false(code, how),
                Truth::Open => {
                    let form = self.push_bound(code, how)?;
                    if form != NONE {
                        self.await_moves(form, work)?;
                    }
                    Ok(())
                }
            },
        }
    }

    /// Takes the last literal back.
    fn pop(&mut self) -> Result<(), Stuck> {
        let Some(entry) = self.trail.entries.pop() else {
            return Err(Stuck::Place);
        };
        if !entry.live {
            return Ok(());
        }
        let mark = if entry.prev == NONE {
            NONE
        } else {
            self.code_at(entry.prev)? / 2
        };
        self.set_form(entry.code, entry.prev, mark)?;
        let range = self.range(entry.code, entry.prev)?;
        uncover(&mut self.forms, range)?;
        self.restore(entry.code, entry.old)
    }

    /// Puts the tableau's bound of a literal back.
    fn restore(&mut self, code: Code, old: Option<Bound>) -> Result<(), Stuck> {
        let form = self.forms.form_of(code)?;
        let column = self.forms.form(form)?.column;
        if column == NONE {
            return Ok(());
        }
        self.tableau.restore(column, code % 2 == 0, old)
    }

    /// Takes back all behind a length of the trail.
    fn pop_to(&mut self, length: usize) -> Result<(), Stuck> {
        for _ in 0..self.trail.entries.len().saturating_sub(length) {
            self.pop()?;
        }
        Ok(())
    }

    /// Goes back to a level.
    pub fn back(&mut self, level: u32) -> Result<(), Stuck> {
        if level >= self.level() {
            return Ok(());
        }
        let (length, pool) = at(self.trail.limits.as_slice(), level)?;
        self.trail.limits.truncate(level as usize);
        self.trail.pool.truncate(pool);
        self.pop_to(length)?;
        forget_moves(&mut self.columns.active, size(length)?)?;
        self.trail.events.clear();
        self.trail.walks.clear();
        lower_paths(&mut self.paths.since, &mut self.trail.walks, level)
    }

    /// Decides on a literal.
    pub fn decide(&mut self, code: Code) -> Result<(), Halt> {
        self.decisions = self.decisions.wrapping_add(1);
        self.tableau.spend(1)?;
        self.trail
            .limits
            .push((self.trail.entries.len(), self.trail.pool.len()))?;
        self.push(code, How::Decision)
    }
}

/// The literal of a definition.
fn definition_code(
    forms: &mut Forms,
    setup: &Setup,
    node: u32,
    which: u32,
) -> Result<Known, Stuck> {
    match item(setup.defs.as_slice(), node)? {
        None => Err(Stuck::Place),
        Some(defined) => {
            if which == 0 {
                forms.code_of(setup, &defined.at_least)
            } else {
                forms.code_of(setup, &defined.at_most)
            }
        }
    }
}

fn at_place(terms: &[(u32, i64)], place: usize) -> Result<u32, Stuck> {
    match terms.get(place) {
        Some(term) => Ok(term.0),
        None => Err(Stuck::Place),
    }
}

/// Moves whose definitions came behind a length are not active.
fn forget_moves(active: &mut Vec<u32>, length: u32) -> Result<(), Stuck> {
    for place in 0..active.len() {
        let slot = active.get_mut(place).ok_or(Stuck::Place)?;
        if *slot >= length {
            *slot = NONE;
        }
    }
    Ok(())
}

/// Paths that came above a level are at that level, and are to be looked at again.
fn lower_paths(since: &mut Vec<(u32, u32)>, walks: &mut Vec<u32>, level: u32) -> Result<(), Stuck> {
    for place in 0..since.len() {
        let slot = since.get_mut(place).ok_or(Stuck::Place)?;
        if slot.1 > level {
            let path = slot.0;
            *slot = (path, level);
            walks.push(path)?;
        }
    }
    Ok(())
}
