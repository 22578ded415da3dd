//! Literals as keys of a set.

ghost use Rattle.std.specs.Prelude.{Some, refl};
ghost use Rattle.std.specs.Cmp.{on_equiv, on_per, on_po, on_total, partial_equiv_from_equiv};
ghost use Rattle.lin_term.specs.Order.{literal_cmp};
ghost use Rattle.lin_term.specs.Same.{same_literal};
ghost use Rattle.dom_core.specs.Ties.{literal_equiv, literal_po, literal_total, same_ties};

use lin_term::Lit;
use std::cmp::Ordering;

/// A literal, in the order of `Lit::order`.
#[derive(Clone, Copy)]
pub struct Key<'a> {
    pub lit: &'a Lit,
}

impl<'a> PartialEq for Key<'a> {
    ghost eq = { λ a b. same_literal a.lit.now b.lit.now };

    ghost laws = { on_per (λ k. k.lit.now) (partial_equiv_from_equiv literal_equiv) };

    fn eq(&self, other: &Key<'a>) -> bool {
        self.lit.is_same(other.lit)
    }
}

impl<'a> Eq for Key<'a> {
    ghost laws = { on_equiv (λ k. k.lit.now) literal_equiv };
}

impl<'a> PartialOrd for Key<'a> {
    ghost partial_cmp = { λ a b. Some (literal_cmp a.lit.now b.lit.now) };

    ghost laws = { on_po (λ k. k.lit.now) literal_po };

    fn partial_cmp(&self, other: &Key<'a>) -> Option<Ordering> {
        Some(self.lit.order(other.lit))
    }
}

impl<'a> Ord for Key<'a> {
    ghost cmp = { λ a b. literal_cmp a.lit.now b.lit.now };

    ghost total = { on_total (λ k. k.lit.now) literal_total };

    ghost matches_partial_cmp = { λ a b. refl };

    ghost matches_eq = { λ a b. same_ties a.lit.now b.lit.now };

    fn cmp(&self, other: &Key<'a>) -> Ordering {
        self.lit.order(other.lit)
    }
}
