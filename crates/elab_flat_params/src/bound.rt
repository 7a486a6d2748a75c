// The integers that constants stand for.

ghost use Rattle.std.specs.Prelude.{IfOk, IfErr};
ghost use Rattle.vlog_tree.specs.Value.{width_of};
ghost use Rattle.elab_flat_params.specs.Constants.{IsBound, IsUnfit};

use crate::constant::known_shape;
use crate::unfit::Unfit;
use std::alloc::{AllocError, Global};
use vlog_tree::{Expr, Valuation};
use vlog_tree_values::{evaluated, integer};

/// The integer that a constant expression stands for by itself.
pub fn bound(
    alloc: Global,
    expr: &Expr,
    params: &Valuation,
) -> Result<Result<i128, Unfit>, AllocError>
    ensures ok { IfOk result (λ r. IfOk r (IsBound params.now expr.now)) }
    ensures err { IfOk result (λ r. IfErr r (IsUnfit params.now expr.now (width_of params.now expr.now))) }
{
    let known = known_shape(alloc, expr, params)?;
    match known {
        Ok(_) => {
            let own = evaluated(alloc, expr, params)?;
            match own {
                Some((word, signed)) => Ok(Ok(integer(word, signed))),
                None => Ok(Err(Unfit::Divisor)),
            }
        }
        Err(unfit) => Ok(Err(unfit)),
    }
}
