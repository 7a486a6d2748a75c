// What workers do.
ghost use Rattle.std.specs.Prelude.{IfOk};

use std::alloc::AllocError;

/// What is done with each element of a list, by any thread.
pub trait Task<T, X> {
    /// How an end goes with an element.
    ghost ends: { Self → T → X → Type 0 };

    /// The end of an element, which has this number in the list, counted from 0.
    fn end(&self, number: u64, element: &T) -> Result<X, AllocError>
        ensures { IfOk result (ends self.now element.now) };
}
