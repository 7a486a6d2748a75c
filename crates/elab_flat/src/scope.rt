// The text of an instance on its way into the module without instances.

ghost use Rattle.std.specs.Prelude.{◌≡◌, IfOk};
ghost use Rattle.elab_flat_instances.specs.Naming.{prefix_name};

use elab_flat_instances::Scope;
use elab_flat_move::Mover;
use outside::Text;
use std::alloc::{AllocError, Global};

/// What moves the text of a scope.
pub fn mover<'a>(alloc: Global, scope: &'a Scope<'_>) -> Mover<'a>
    ensures prefix { result.prefix.now ≡ scope.now.prefix }
    ensures params { result.params.now ≡ scope.now.params }
{
    Mover {
        alloc,
        prefix: scope.prefix.bytes(),
        params: &scope.params,
    }
}

/// The name of a scope by what stands in front of its names: the top's name at the top.
pub fn scope_name(alloc: Global, top: &[u8], prefix: &[u8]) -> Result<Text, AllocError>
    ensures { IfOk result (λ text. text ≡ prefix_name top.now prefix.now) }
{
    let length = prefix.len();
    if length == 0 {
        Text::copy(alloc, top)
    } else {
        Text::copy(alloc, &prefix[..length - 1])
    }
}
