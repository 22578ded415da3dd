//! Forms over the columns, found by their terms, and their thresholds. A bound is a threshold, so truth, conflict and
//! implication are comparisons of ranks. Thresholds may be added at any time.

use crate::code::{Code, Known, Truth};
use crate::threshold::Threshold;
use search_rows::Stuck;
use search_simplex::{NONE, at, item, lent, put, size};
use std::alloc::Global;
use std::cmp::Ordering;

/// The modulus of a form that is a row and no divisibility.
pub const NO_MODULUS: u64 = 0;

/// A row over the columns, or a divisibility over nodes.
#[derive(Debug, Drop)]
pub struct Form {
    pub terms: Vec<(u32, i64)>,
    /// The constant of a divisibility.
    pub constant: i64,
    /// The modulus of a divisibility; 0 where it is none.
    pub modulus: u64,
    /// The column of the tableau.
    pub column: u32,
    /// The place of the lower bound in force on the trail, and its threshold.
    pub low: u32,
    pub low_mark: u32,
    /// The same of the upper bound.
    pub high: u32,
    pub high_mark: u32,
    /// The thresholds, ascending.
    pub order: Vec<u32>,
}

/// All forms and thresholds.
#[derive(Debug, Drop)]
pub struct Forms {
    pub alloc: Global,
    pub list: Vec<Form>,
    pub thresholds: Vec<Threshold>,
    /// The truth of each threshold under the bounds in force.
    pub truths: Vec<Truth>,
    /// The places of the store in which each literal stands.
    pub uses: Vec<Vec<u32>>,
    /// The literals of the leaves.
    pub store: Vec<Known>,
    heads: Vec<u32>,
    links: Vec<u32>,
}

/// How many chains the index has at first.
const CHAINS: usize = 256;

fn hash_of(terms: &[(u32, i64)], modulus: u64, constant: i64) -> u64 {
    let mut h: u64 = modulus
        .wrapping_mul(31)
        .wrapping_add(constant.cast_unsigned());
    for term in terms {
        h = (h.rotate_left(5) ^ term.0 as u64).wrapping_mul(5_871_781_006_564_002_453);
        h = (h.rotate_left(5) ^ term.1.cast_unsigned()).wrapping_mul(5_871_781_006_564_002_453);
    }
    h ^ (h >> 29)
}

impl Forms {
    /// No form, and a store of so many leaves.
    pub fn new(alloc: Global, leaves: usize) -> Result<Forms, Stuck> {
        let mut forms = Forms {
            alloc,
            list: Vec::new(alloc),
            thresholds: Vec::new(alloc),
            truths: Vec::new(alloc),
            uses: Vec::new(alloc),
            store: Vec::new(alloc),
            heads: Vec::new(alloc),
            links: Vec::new(alloc),
        };
        forms.store.resize(leaves, Known::Unset)?;
        forms.heads.resize(CHAINS, NONE)?;
        Ok(forms)
    }

    /// A form.
    pub fn form(&self, form: u32) -> Result<&Form, Stuck> {
        item(self.list.as_slice(), form)
    }

    /// A threshold.
    pub fn threshold(&self, mark: u32) -> Result<Threshold, Stuck> {
        at(self.thresholds.as_slice(), mark)
    }

    /// The form of a literal.
    pub fn form_of(&self, code: Code) -> Result<u32, Stuck> {
        Ok(self.threshold(code / 2)?.form)
    }

    /// The rank of a literal's threshold.
    pub fn rank_of(&self, code: Code) -> Result<u32, Stuck> {
        Ok(self.threshold(code / 2)?.rank)
    }

    /// The truth of a literal.
    pub fn truth(&self, code: Code) -> Result<Truth, Stuck> {
        let truth = at(self.truths.as_slice(), code / 2)?;
        Ok(if code % 2 == 0 {
            truth
        } else {
            truth.flipped()
        })
    }

    /// The truth of a leaf's literal; open where it was not worked out.
    pub fn truth_of(&self, known: Known) -> Result<Truth, Stuck> {
        match known {
            Known::Unset => Ok(Truth::Open),
            Known::True => Ok(Truth::True),
            Known::False => Ok(Truth::False),
            Known::Lit(code) => self.truth(code),
        }
    }

    fn chain(&self, hash: u64) -> Result<u32, Stuck> {
        let place = hash
            .checked_rem(self.heads.len() as u64)
            .ok_or(Stuck::Place)?;
        u32::try_from(place).ok().ok_or(Stuck::Place)
    }

    fn found(
        &self,
        hash: u64,
        terms: &[(u32, i64)],
        modulus: u64,
        constant: i64,
    ) -> Result<u32, Stuck> {
        let mut now = at(self.heads.as_slice(), self.chain(hash)?)?;
        for _ in 0..self.list.len() {
            if now == NONE {
                return Ok(NONE);
            }
            if is_same(self.form(now)?, terms, modulus, constant) {
                return Ok(now);
            }
            now = at(self.links.as_slice(), now)?;
        }
        Ok(NONE)
    }

    fn link(&mut self, form: u32, hash: u64) -> Result<(), Stuck> {
        let chain = self.chain(hash)?;
        let first = at(self.heads.as_slice(), chain)?;
        put(&mut self.links, form, first)?;
        put(&mut self.heads, chain, form)
    }

    /// More chains, where there are many forms.
    fn grow(&mut self) -> Result<(), Stuck> {
        if self.list.len() <= self.heads.len().saturating_mul(2) {
            return Ok(());
        }
        let chains = self.heads.len().saturating_mul(4);
        self.heads.clear();
        self.heads.resize(chains, NONE)?;
        for form in 0..size(self.list.len())? {
            let hash = self.hash_at(form)?;
            self.link(form, hash)?;
        }
        Ok(())
    }

    fn hash_at(&self, form: u32) -> Result<u64, Stuck> {
        let found = self.form(form)?;
        Ok(hash_of(found.terms.as_slice(), found.modulus, found.constant))
    }

    /// The form with these terms; whether it is new.
    pub fn intern(
        &mut self,
        terms: Vec<(u32, i64)>,
        modulus: u64,
        constant: i64,
    ) -> Result<(u32, bool), Stuck> {
        let hash = hash_of(terms.as_slice(), modulus, constant);
        let old = self.found(hash, terms.as_slice(), modulus, constant)?;
        if old != NONE {
            return Ok((old, false));
        }
        let form = size(self.list.len())?;
        self.list.push(Form {
            terms,
            constant,
            modulus,
            column: NONE,
            low: NONE,
            low_mark: NONE,
            high: NONE,
            high_mark: NONE,
            order: Vec::new(self.alloc),
        })?;
        self.links.push(NONE)?;
        self.link(form, hash)?;
        self.grow()?;
        Ok((form, true))
    }

    /// How a threshold stands to num/den.
    fn compare(&self, mark: u32, num: i64, den: i64, strict: bool) -> Result<Ordering, Stuck> {
        let old = self.threshold(mark)?;
        let left = old.num as i128 * den as i128;
        let right = num as i128 * old.den as i128;
        if left < right {
            return Ok(Ordering::Less);
        }
        if right < left {
            return Ok(Ordering::Greater);
        }
        if old.strict == strict {
            return Ok(Ordering::Equal);
        }
        Ok(if strict {
            Ordering::Less
        } else {
            Ordering::Greater
        })
    }

    /// The place of a threshold in the order of its form, and whether it is there.
    fn place(&self, form: u32, num: i64, den: i64, strict: bool) -> Result<(usize, u32), Stuck> {
        let order = self.form(form)?.order.as_slice();
        let mut from: usize = 0;
        let mut to = order.len();
        for _ in 0..64 {
            if from >= to {
                return Ok((from, NONE));
            }
            let middle = from / 2 + to / 2 + (from % 2 + to % 2) / 2;
            let mark = match order.get(middle) {
                Some(found) => *found,
                None => return Err(Stuck::Place),
            };
            match self.compare(mark, num, den, strict)? {
                Ordering::Equal => return Ok((middle, mark)),
                Ordering::Less => from = middle.wrapping_add(1),
                Ordering::Greater => to = middle,
            }
        }
        Ok((from, NONE))
    }

    /// The truth of a threshold at a place of the order, before it is added.
    fn new_truth(&self, form: u32, place: usize) -> Result<Truth, Stuck> {
        let found = self.form(form)?;
        if found.low_mark != NONE {
            if self.threshold(found.low_mark)?.rank as usize >= place {
                return Ok(Truth::True);
            }
        }
        if found.high_mark != NONE {
            if (self.threshold(found.high_mark)?.rank as usize) < place {
                return Ok(Truth::False);
            }
        }
        Ok(Truth::Open)
    }

    /// The threshold num/den of a form, strict or not.
    pub fn mark(&mut self, form: u32, num: i64, den: i64, strict: bool) -> Result<u32, Stuck> {
        let (place, old) = self.place(form, num, den, strict)?;
        if old != NONE {
            return Ok(old);
        }
        let truth = self.new_truth(form, place)?;
        let mark = size(self.thresholds.len())?;
        self.thresholds.push(Threshold {
            form,
            rank: size(place)?,
            num,
            den,
            strict,
        })?;
        self.truths.push(truth)?;
        self.uses.push(Vec::new(self.alloc))?;
        self.uses.push(Vec::new(self.alloc))?;
        let order = &mut lent(&mut self.list, form)?.order;
        if place <= order.len() {
            order.insert(place, mark)?;
        }
        renumber(&mut self.thresholds, order.as_slice(), place)?;
        Ok(mark)
    }
}

/// The ranks from a place on.
fn renumber(thresholds: &mut Vec<Threshold>, order: &[u32], from: usize) -> Result<(), Stuck> {
    for place in from..order.len() {
        let mark = match order.get(place) {
            Some(found) => *found,
            None => return Err(Stuck::Place),
        };
        lent(thresholds, mark)?.rank = size(place)?;
    }
    Ok(())
}

fn is_same(form: &Form, terms: &[(u32, i64)], modulus: u64, constant: i64) -> bool {
    form.modulus == modulus && form.constant == constant && form.terms.as_slice() == terms
}
