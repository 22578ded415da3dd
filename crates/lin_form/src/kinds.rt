//! Constant terms, and terms without a choice.

ghost use Rattle.std.specs.Prelude.{◌≡◌};
ghost use Rattle.lin_truth.specs.Constant.{is_constant as is_constant_tree, are_constant};
ghost use Rattle.lin_truth.specs.View.{tree_of, trees_of};
ghost use Rattle.lin_form.specs.Direct.{is_direct as is_direct_tree, are_direct};

use lin_truth::Term;

/// Whether a term is built from numbers and operations alone.
#[cycle(constant)]
pub fn is_constant(term: &Term) -> bool
    ensures { result ≡ is_constant_tree (tree_of term.now) }
{
    match term {
        Term::Number { .. } => true,
        Term::Negative(t) => is_constant(t.get()),
        Term::Abs(t) => is_constant(t.get()),
        Term::Minus(a, b) => is_constant(a.get()) && is_constant(b.get()),
        Term::Quotient(a, b) => is_constant(a.get()) && is_constant(b.get()),
        Term::Div(a, b) => is_constant(a.get()) && is_constant(b.get()),
        Term::Mod(a, b) => is_constant(a.get()) && is_constant(b.get()),
        Term::Plus(ts) => all_constant(ts.as_slice()),
        Term::Times(ts) => all_constant(ts.as_slice()),
        _ => false,
    }
}

/// Whether all terms are constant.
#[cycle(constant)]
pub fn all_constant(terms: &[Term]) -> bool
    ensures { result ≡ are_constant (trees_of terms.now) }
{
    for term in terms {
        if !is_constant(term) {
            return false;
        }
    }
    true
}

/// Whether a term has no ite, abs, div or mod outside constant terms.
#[cycle(direct)]
pub fn is_direct(term: &Term) -> bool
    ensures { result ≡ is_direct_tree (tree_of term.now) }
{
    match term {
        Term::Number { .. } => true,
        Term::Var(_) => true,
        Term::Negative(t) => is_direct(t.get()),
        Term::Abs(t) => is_constant(t.get()),
        Term::Minus(a, b) => is_direct(a.get()) && is_direct(b.get()),
        Term::Quotient(a, _) => is_direct(a.get()),
        Term::Div(a, b) => is_constant(a.get()) && is_constant(b.get()),
        Term::Mod(a, b) => is_constant(a.get()) && is_constant(b.get()),
        Term::Plus(ts) => all_direct(ts.as_slice()),
        Term::Times(ts) => all_direct(ts.as_slice()),
        _ => false,
    }
}

#[cycle(direct)]
fn all_direct(terms: &[Term]) -> bool
    ensures { result ≡ are_direct (trees_of terms.now) }
{
    for term in terms {
        if !is_direct(term) {
            return false;
        }
    }
    true
}
