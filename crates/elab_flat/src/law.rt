// What hangs on the checks of the scopes.

ghost use Rattle.elab_flat.specs.Laws.{CheckedScopesFlatten, UnfoldedScopesFollow, PortsAreInputs};

/// Scopes whose texts break no rule on names, constants and lengths can be flattened.
pub fn checked_scopes_flatten()
    ensures { CheckedScopesFlatten }
{}

/// The scopes of a list of modules stand in the order of their paths: behind the top the instances of each scope, one
/// scope's after another's.
pub fn unfolded_scopes_follow()
    ensures { UnfoldedScopesFollow }
{}

/// A port of the top's header that is no output is one of its inputs, where the rules on names and ports hold (IEEE
/// 1364-2005, section 12.3).
pub fn ports_are_inputs()
    ensures { PortsAreInputs }
{}
