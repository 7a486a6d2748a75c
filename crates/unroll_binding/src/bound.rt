ghost use Rattle.std.specs.Prelude.{◌≡◌};
ghost use Rattle.unroll_binding.specs.Binding.{Fits};

use elab_step_design::Design;
use set_tree_structure::Sound;
use std::marker::Model;

/// A design and a set of properties that fits it.
#[derive(Drop)]
pub struct Bound {
    design: Design,
    set: Sound,
}

impl Model for Bound {
    ghost use Rattle.vlog_tree.specs.contracts.expr.Expr as expr;
    ghost use Rattle.std.specs.Coded.{codes};
    ghost use Rattle.unroll_binding.specs.Binding.{Pair, Fits};

    ghost Value = { Pair };

    ghost coded = { Prim.hlevel (codes, expr.the_row.coded) };

    ghost view = { λ b. record { design = b.design; set = b.set } };

    ghost invariant = { λ b. Fits b.design b.set };
}

impl Bound {
    /// The set with the design that it fits.
    pub fn new(design: Design, set: Sound) -> Bound
        requires { Fits design set }
        ensures { result ≡ record { design = design; set = set } }
    {
        Bound { design, set }
    }

    /// The design.
    pub fn design(&self) -> &Design
        ensures value { result.now ≡ self.now.design }
        ensures fits { Fits self.now.design self.now.set }
    {
        &self.design
    }

    /// The set.
    pub fn set(&self) -> &Sound
        ensures { result.now ≡ self.now.set }
    {
        &self.set
    }
}
