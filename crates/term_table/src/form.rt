//! The size of an entry as a linear form over the sizes of what stands for the parameters of the definition that it
//! stands in. An entry outside of definitions has a form without uses, so its size is one number.

ghost use Rattle.std.specs.Prelude.{◌≡◌, ℕ, List, [], IfOk, slice_index_or};
ghost use Rattle.term_table.specs.Scale as scale;
ghost use Rattle.term_table.specs.Scale.{Scale, Near, amount, ring, bare};
ghost use Rattle.term_table.specs.Form.{Linear, AreSizes, Adds, dot, value};

use crate::amount::{Amount, Weight};
use std::alloc::{AllocError, Global};
use std::marker::Model;

/// A size of its own, and how each parameter counts.
#[derive(Drop)]
pub struct Form {
    own: Amount,
    uses: Vec<Weight>,
}

impl Model for Form {
    ghost use Rattle.term_table.specs.Linear.{Linear};

    ghost Value = { Linear };

    ghost view = { λ f. record { own = f.own; uses = f.uses.items } };
}

/// A node by itself, with so many nodes that no constant term has.
pub fn layer(free: u32, bindings: u32) -> Amount
    ensures { result ≡ record { nodes = 1; bindings = bindings; free = free; depth = 1 } }
{
    Amount {
        nodes: 1,
        bindings,
        free,
        depth: 1,
    }
}

impl Form {
    /// A size alone.
    pub fn of(alloc: Global, own: Amount) -> Form
        ensures { (s : Scale) → (gs : List ℕ) → value s result gs ≡ (ring s).plus (amount s own) 0 }
    {
        Form {
            own,
            uses: Vec::new(alloc),
        }
    }

    /// The size of a parameter.
    pub fn parameter(alloc: Global, number: u32) -> Result<Form, AllocError>
        ensures { IfOk result (λ form. (s : Scale) → (gs : List ℕ) → Near s (value s form gs) (slice_index_or gs number (bare s))) }
    {
        let mut uses = Vec::new(alloc);
        for _ in 0..number {
            uses.push(Weight { times: 0, way: 0 })?;
        }
        uses.push(Weight { times: 1, way: 1 })?;
        let own = Amount {
            nodes: 0,
            bindings: 0,
            free: 0,
            depth: 0,
        };
        Ok(Form { own, uses })
    }

    /// The size of its own.
    pub fn own(&self) -> Amount
        ensures { result ≡ self.now.own }
    {
        self.own
    }

    /// How the parameters count.
    pub fn uses(&self) -> &[Weight]
        ensures { result.now ≡ self.now.uses }
    {
        self.uses.as_slice()
    }

    /// Adds a size that counts so.
    pub fn add_amount(&mut self, size: Amount, weight: Weight)
        ensures { Adds weight (λ s gs. amount s size) self.old self.new }
    {
        self.own = self.own.plus(size.scaled(weight));
    }

    /// Adds the form of a part that counts so.
    pub fn add(&mut self, part: &Form, weight: Weight) -> Result<(), AllocError>
        ensures { IfOk result (λ _. Adds weight (λ s gs. value s part.now gs) self.old self.new) }
    {
        self.own = self.own.plus(part.own.scaled(weight));
        add_uses(&mut self.uses, part.uses.as_slice(), weight)?;
        Ok(())
    }

    /// The size where nothing is given for the parameters.
    pub fn size(&self) -> Amount
        ensures { AreSizes result (λ s. value s self.now []) }
    {
        let mut sum = self.own;
        for weight in &self.uses {
            sum = sum.plus(layer(1, 0).scaled(*weight));
        }
        sum
    }
}

/// Adds the uses of a part that counts so.
fn add_uses(uses: &mut Vec<Weight>, part: &[Weight], weight: Weight) -> Result<(), AllocError>
    ensures { IfOk result (λ _. (s : Scale) → (gs : List ℕ) → Near s (dot s uses.new.items gs) ((ring s).plus (dot s uses.old.items gs) ((ring s).times (scale.weight s weight) (dot s part.now gs)))) }
{
    for (i, inner) in part.iter().enumerate() {
        let more = weight.of(*inner);
        if i < uses.len() {
            let sum = uses[i].plus(more);
            uses[i] = sum;
        } else {
            uses.push(more)?;
        }
    }
    Ok(())
}
