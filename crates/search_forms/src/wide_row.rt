//! Rows over nodes with the moves put in: rows over the columns.

use search_rows::Stuck;
use search_simplex::{at, item, lcm, product, quotient, sum};
use std::alloc::Global;

/// What a node is over the columns: the terms and the constant over a denominator.
#[derive(Debug, Drop)]
pub struct Sub {
    pub terms: Vec<(u32, i64)>,
    pub constant: i64,
    /// 1 or more.
    pub den: i64,
}

/// A row over the columns, with a denominator.
#[derive(Debug, Drop)]
pub struct WideRow {
    pub terms: Vec<(u32, i128)>,
    pub constant: i128,
    /// 1 or more.
    pub den: i128,
}

/// A row over positions as one over the nodes of a path.
pub fn renamed(
    alloc: Global,
    terms: &[(u32, i64)],
    names: &[u32],
) -> Result<Vec<(u32, i64)>, Stuck> {
    let mut out: Vec<(u32, i64)> = Vec::new(alloc);
    for term in terms {
        out.push((at(names, term.0)?, term.1))?;
    }
    Ok(out)
}

/// Equal variables joined, and zeros left out, of terms that ascend.
fn joined(alloc: Global, terms: &[(u32, i128)]) -> Result<Vec<(u32, i128)>, Stuck> {
    let mut out: Vec<(u32, i128)> = Vec::new(alloc);
    let mut now: Option<(u32, i128)> = None;
    for term in terms {
        match now {
            None => now = Some(*term),
            Some(old) => {
                if old.0 == term.0 {
                    now = Some((old.0, sum(old.1, term.1)?));
                } else {
                    push_term(&mut out, old)?;
                    now = Some(*term);
                }
            }
        }
    }
    if let Some(old) = now {
        push_term(&mut out, old)?;
    }
    Ok(out)
}

fn push_term(out: &mut Vec<(u32, i128)>, term: (u32, i128)) -> Result<(), Stuck> {
    if term.1 != 0 {
        out.push(term)?;
    }
    Ok(())
}

fn push_times(out: &mut Vec<(u32, i128)>, f: i128, terms: &[(u32, i64)]) -> Result<(), Stuck> {
    for term in terms {
        out.push((term.0, product(f, term.1 as i128)?))?;
    }
    Ok(())
}

/// The least common denominator of the nodes.
fn common_den(subs: &[Sub], terms: &[(u32, i64)]) -> Result<i128, Stuck> {
    let mut den: i128 = 1;
    for term in terms {
        den = lcm(den, item(subs, term.0)?.den as i128)?;
    }
    Ok(den)
}

/// A row over nodes as one over the columns.
pub fn linear(
    alloc: Global,
    subs: &[Sub],
    terms: &[(u32, i64)],
    constant: i64,
) -> Result<WideRow, Stuck> {
    let den = common_den(subs, terms)?;
    let mut list: Vec<(u32, i128)> = Vec::new(alloc);
    let mut total = product(constant as i128, den)?;
    for term in terms {
        let sub = item(subs, term.0)?;
        let f = product(term.1 as i128, quotient(den, sub.den as i128)?)?;
        total = sum(total, product(f, sub.constant as i128)?)?;
        push_times(&mut list, f, sub.terms.as_slice())?;
    }
    if terms.len() > 1 {
        list.sort()?;
        list = joined(alloc, list.as_slice())?;
    }
    Ok(WideRow {
        terms: list,
        constant: total,
        den,
    })
}
