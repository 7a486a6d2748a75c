// Two steps of derivations: one that tells propagation something new, and one that doesn't.

ghost use Rattle.cdcl.specs.Examples.{ExampleSteps};

/// Both examples, with nothing to run.
pub fn examples_stand()
    ensures { ExampleSteps }
{}
