// Instances, the top among them.

use outside::Text;
use vlog_tree::{Module, Valuation};

/// An instance of a module, or the top.
#[derive(Drop)]
pub struct Scope<'a> {
    /// What stands in front of its names: the names of the instances on its path, each with a dot behind it.
    pub prefix: Text,
    pub text: &'a Module,
    /// What its parameters stand for.
    pub params: Valuation,
}
