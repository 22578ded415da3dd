//! Two rows side by side.

use crate::number::{product, sum};
use search_rows::Stuck;
use std::alloc::Global;

/// The next variable of two rows, with its coefficients there: 0 where it does not stand.
pub fn head(left: Option<&(u32, i64)>, right: Option<&(u32, i64)>) -> Option<(u32, i64, i64)> {
    match left {
        None => match right {
            None => None,
            Some(b) => Some((b.0, 0, b.1)),
        },
        Some(a) => match right {
            None => Some((a.0, a.1, 0)),
            Some(b) => Some(earlier(*a, *b)),
        },
    }
}

fn earlier(a: (u32, i64), b: (u32, i64)) -> (u32, i64, i64) {
    if a.0 < b.0 {
        (a.0, a.1, 0)
    } else if b.0 < a.0 {
        (b.0, 0, b.1)
    } else {
        (a.0, a.1, b.1)
    }
}

fn wide_head(left: Option<&(u32, i128)>, right: Option<&(u32, i64)>) -> Option<(u32, i128, i64)> {
    match left {
        None => match right {
            None => None,
            Some(b) => Some((b.0, 0, b.1)),
        },
        Some(a) => match right {
            None => Some((a.0, a.1, 0)),
            Some(b) => Some(wide_earlier(*a, *b)),
        },
    }
}

fn wide_earlier(a: (u32, i128), b: (u32, i64)) -> (u32, i128, i64) {
    if a.0 < b.0 {
        (a.0, a.1, 0)
    } else if b.0 < a.0 {
        (b.0, 0, b.1)
    } else {
        (a.0, a.1, b.1)
    }
}

/// p times one row plus q times the other, without the terms that cancel.
pub fn merged(
    alloc: Global,
    p: i128,
    left: &[(u32, i128)],
    q: i128,
    right: &[(u32, i64)],
) -> Result<Vec<(u32, i128)>, Stuck> {
    let mut out: Vec<(u32, i128)> = Vec::new(alloc);
    let mut i: usize = 0;
    let mut j: usize = 0;
    for _ in 0..left.len().saturating_add(right.len()) {
        let Some((var, a, b)) = wide_head(left.get(i), right.get(j)) else {
            return Ok(out);
        };
        if a != 0 {
            i = i.wrapping_add(1);
        }
        if b != 0 {
            j = j.wrapping_add(1);
        }
        let c = sum(product(p, a)?, product(q, b as i128)?)?;
        if c != 0 {
            out.push((var, c))?;
        }
    }
    Ok(out)
}
