// The two texts of a check as tokens.
use signoff_places::{Named, byte_of_name, instance_in, module_in, named_in};
use vlog_tree::Token;

/// The tokens of the modules and of the set, and the name of the set's block.
#[derive(Clone, Copy)]
pub struct Sources<'a> {
    pub modules: &'a [Token],
    pub set: &'a [Token],
    pub top: &'a [u8],
}

impl<'a> Sources<'a> {
    /// What a hierarchical name of the modules leads to.
    pub fn named(&self, path: &'a [u8]) -> Option<Named<'a>> {
        named_in(self.modules, self.top, path)
    }

    /// The byte of what a hierarchical name of the modules names.
    pub fn byte_of(&self, path: &[u8]) -> Option<usize> {
        byte_of_name(self.modules, self.top, path)
    }

    /// The module of an instance by its name, or that of the top by the top's.
    pub fn inside(&self, named: &Named<'a>) -> Option<&'a [Token]> {
        match instance_in(named.body, named.last) {
            Some(instance) => module_in(self.modules, instance.of_module()),
            None => Some(named.body),
        }
    }
}
