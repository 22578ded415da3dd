//! Moves as the keys of a map.

ghost use Rattle.std.specs.Prelude.{◌≡◌};
ghost use Rattle.std.specs.Ordering.{eq_by_cmp, as_partial_cmp, is_eq, on};
ghost use Rattle.std.specs.Cmp.{partial_equiv_from_equiv, eq_by_cmp_equiv, on_total, partial_order_from_total};
ghost use Rattle.lin_term.specs.Order.{move_cmp};
ghost use Rattle.lin_term.proofs.Orders.{move_order};
ghost use Rattle.std.proofs.Common.{refl};

use lin_term::Move;
use std::cmp::Ordering;

/// A move that is compared by the order of moves.
#[derive(Clone, Copy)]
pub struct MoveKey<'a> {
    pub term: &'a Move,
}

impl<'a> PartialEq for MoveKey<'a> {
    ghost eq = { eq_by_cmp (on (λ k. k.term.now) move_cmp) };

    ghost laws = { partial_equiv_from_equiv (eq_by_cmp_equiv (on_total (λ k. k.term.now) move_order.total)) };

    fn eq(&self, other: &MoveKey<'a>) -> bool {
        self.term.order(other.term).is_eq()
    }
}

impl<'a> Eq for MoveKey<'a> {
    ghost laws = { eq_by_cmp_equiv (on_total (λ k. k.term.now) move_order.total) };
}

impl<'a> PartialOrd for MoveKey<'a> {
    ghost partial_cmp = { as_partial_cmp (on (λ k. k.term.now) move_cmp) };

    ghost laws = { partial_order_from_total (on_total (λ k. k.term.now) move_order.total) };

    fn partial_cmp(&self, other: &MoveKey<'a>) -> Option<Ordering> {
        Some(self.term.order(other.term))
    }
}

impl<'a> Ord for MoveKey<'a> {
    ghost cmp = { on (λ k. k.term.now) move_cmp };

    ghost total = { on_total (λ k. k.term.now) move_order.total };

    ghost matches_partial_cmp = { λ x y. refl };

    ghost matches_eq = { λ x y. refl };

    fn cmp(&self, other: &MoveKey<'a>) -> Ordering {
        self.term.order(other.term)
    }
}
