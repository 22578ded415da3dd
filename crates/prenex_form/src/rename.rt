//! Literals at the places of their path.

ghost use Rattle.std.specs.Prelude.{◌≡◌, IfOk, length};
ghost use Rattle.lin_term.specs.Form.{AreTerms};
ghost use Rattle.lin_term.specs.Linear.{Below};
ghost use Rattle.lin_term.specs.Literal.{form_of, rename_lit};
ghost use Rattle.prenex_form.specs.Pass.{IsPath};

use lin_term::{Lit, Memory, renamed};
use std::alloc::Global;

/// The literal with the places of its path in place of its variables. The places ascend, so its row does.
pub(crate) fn at_places(alloc: Global, lit: &Lit, places: &[u32]) -> Result<Lit, Memory>
    requires path { IsPath 0 places.now }
    requires below { Below (length places.now) (form_of lit.now) }
    ensures value { IfOk result (λ l. l ≡ rename_lit places.now lit.now) }
    ensures tidy { AreTerms 0 (form_of lit.now).terms }
{
    let _kept = lit.row().coefs();
    renamed(alloc, lit, places)
}
