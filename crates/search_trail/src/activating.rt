//! A path takes part from the moment the values at hand fail it. Its leaves are worked out, its forms get rows, and its
//! conjunctions that contradict themselves are noted.

use crate::search::Search;
use search_forms::{Kind, Known, Shape};
use search_rows::Stuck;
use search_simplex::{put, size};
use std::alloc::Global;

/// Two literals of one form that contradict each other: the greatest lower rank is at or above the least upper one.
fn contradict(list: &[(u32, u32, u32)]) -> bool {
    let mut form: u32 = 0;
    let mut low: Option<u32> = None;
    for found in list {
        if found.0 != form {
            form = found.0;
            low = None;
        }
        if found.1 == 0 {
            low = Some(found.2);
        } else if let Some(rank) = low {
            if rank >= found.2 {
                return true;
            }
        }
    }
    false
}

fn child_leaves(alloc: Global, shape: &Shape, node: u32) -> Result<Vec<u32>, Stuck> {
    let mut out: Vec<u32> = Vec::new(alloc);
    let mut child = shape.first(node)?;
    for _ in 0..shape.kinds.len() {
        let Some(found) = child else {
            return Ok(out);
        };
        if let Kind::Leaf(leaf) = shape.kind(found)? {
            out.push(leaf)?;
        }
        child = shape.next(node, found)?;
    }
    Ok(out)
}

impl Search {
    /// Works out a leaf of a path, and gives its form a row while there are few.
    fn work_out(&mut self, path: u32, leaf: u32) -> Result<(), Stuck> {
        if let Known::Lit(code) = self.forms.leaf(&self.setup, path, leaf)? {
            let form = self.forms.form_of(code)?;
            if self.tableau.rows.len() < self.options.rows && !self.is_divisibility(form)? {
                self.column_of(form)?;
            }
        }
        Ok(())
    }

    /// The literals of a conjunction's leaves: form, side, rank; ascending.
    fn ranked(&self, path: u32, leaves: &[u32]) -> Result<Vec<(u32, u32, u32)>, Stuck> {
        let mut out: Vec<(u32, u32, u32)> = Vec::new(self.alloc);
        for leaf in leaves {
            if let Known::Lit(code) = self.forms.leaf_known(&self.setup, path, *leaf)? {
                let mark = self.forms.threshold(code / 2)?;
                out.push((mark.form, code % 2, mark.rank))?;
            }
        }
        out.sort()?;
        Ok(out)
    }

    fn note_dead(&mut self, path: u32, node: u32) -> Result<(), Stuck> {
        let place = self.dead_place(path, node)?;
        if self.paths.dead.is_empty() {
            let count = self.dead_place(self.setup.path_count(), 0)?;
            self.paths.dead.resize(count, false)?;
        }
        let slot = self.paths.dead.get_mut(place).ok_or(Stuck::Place)?;
        *slot = true;
        Ok(())
    }

    /// Notes a conjunction that contradicts itself.
    fn try_dead(&mut self, path: u32, node: u32) -> Result<(), Stuck> {
        if self.setup.shape.kind(node)? != Kind::And || node == 0 {
            return Ok(());
        }
        let leaves = child_leaves(self.alloc, &self.setup.shape, node)?;
        if leaves.len() < 2 {
            return Ok(());
        }
        if contradict(self.ranked(path, leaves.as_slice())?.as_slice()) {
            self.note_dead(path, node)?;
        }
        Ok(())
    }

    /// A path takes part.
    pub fn activate_path(&mut self, path: u32) -> Result<(), Stuck> {
        put(&mut self.paths.active, path, true)?;
        let level = self.level();
        self.paths.since.push((path, level))?;
        self.trail.walks.push(path)?;
        for leaf in 0..size(self.setup.shape.leaves.len())? {
            self.work_out(path, leaf)?;
        }
        for node in 0..size(self.setup.shape.kinds.len())? {
            self.try_dead(path, node)?;
        }
        Ok(())
    }
}
