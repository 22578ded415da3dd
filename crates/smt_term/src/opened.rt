//! Names that a `let` or a binder adds.

ghost use Rattle.std.specs.Prelude.{◌≡◌, [], length, OnOk, IfErr};
ghost use Rattle.ss_names.specs.declared.ScriptFault.TheVariants.{Memory};
ghost use Rattle.term_table.specs.Meaning.{meanings};
ghost use Rattle.smt_term.specs.Scope.{with_bound, with_bindings};
ghost use Rattle.smt_term.specs.Reads.{scope_seen, Fits};
ghost use Rattle.smt_term.specs.Newest.{newest_first, bound_at, BoundIn};
ghost use Rattle.smt_term.specs.Opens.{Opens};

use crate::bindings::{Binding, Bound};
use crate::making::added;
use crate::reader::Reader;
use ss_names::ScriptFault;
use symbol_table::Known;
use term_table::Node;

impl<'a> Reader<'a> {
    /// Adds the names of a `let`; it refuses only for memory.
    pub fn add_bound(&mut self, bound: &[Bound<'a>]) -> Result<(), ScriptFault>
        requires fits { Fits self.old }
        requires bound { BoundIn (length self.old.table) bound.now }
        ensures opens { OnOk result (Opens (with_bound (scope_seen self.old) (bound_at (meanings self.old.table) [] bound.now)) self.old self.new) }
        ensures memory { IfErr result (λ e. e ≡ Memory) }
    {
        for b in bound {
            let known = Known {
                sort: b.seen.sort,
                node: b.seen.node,
                signature: 0,
            };
            match self.names.push(b.name, known) {
                Ok(_) => {}
                Err(_) => return Err(ScriptFault::Memory),
            }
        }
        Ok(())
    }

    /// Adds the variables of a binder; it refuses only for memory.
    pub fn add_variables(&mut self, variables: &[Binding<'a>]) -> Result<(), ScriptFault>
        requires { Fits self.old }
        ensures opens { OnOk result (Opens (with_bindings (scope_seen self.old) (newest_first [] variables.now)) self.old self.new) }
        ensures memory { IfErr result (λ e. e ≡ Memory) }
    {
        let mut place = self.around;
        for v in variables {
            if place == 4_294_967_295 {
                return Err(ScriptFault::Memory);
            }
            let node = match added(&mut self.table, Node::Binding(place)) {
                Ok(node) => node,
                Err(_) => return Err(ScriptFault::Memory),
            };
            let known = Known {
                sort: v.sort,
                node,
                signature: 0,
            };
            match self.names.push(v.name, known) {
                Ok(_) => {}
                Err(_) => return Err(ScriptFault::Memory),
            }
            place += 1;
        }
        self.around = place;
        Ok(())
    }
}
