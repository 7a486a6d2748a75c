ghost use Rattle.std.specs.Prelude.{◌<◌, ◌^◌, ◌↔◌, All, IsTrue};
ghost use Rattle.proof_store_records.specs.Layout.{FitsStep};
ghost use Rattle.proof_store_records.specs.Records.{content, FitsVersion, FitsVersion1, Fits};

use crate::version::Version;
use clause_check::Step;

// Whether the version has room for each step.
fn each_fits(version: Version, steps: &[Step]) -> bool
    ensures { IsTrue result ↔ All (λ s. FitsStep version (content s)) steps.now }
{
    for step in steps {
        if !version.is_count(step.clause.lits().len()) || !version.is_count(step.hints.len()) {
            return false;
        }
    }
    true
}

// Whether the version has room for these steps.
fn version_fits(version: Version, steps: &[Step]) -> bool
    ensures { IsTrue result ↔ FitsVersion version steps.now }
{
    version.is_count(steps.len()) && each_fits(version, steps)
}

/// Whether the steps can be written in version 2, which any can. It takes no memory.
pub fn record_fits(steps: &[Step]) -> bool
    ensures { IsTrue result ↔ Fits steps.now }
{
    version_fits(Version::Second, steps)
}

/// Whether the steps can be written in version 1: each number of steps, of literals and of hints is below 2^32. It
/// takes no memory.
pub fn fits_version_1(steps: &[Step]) -> bool
    ensures { IsTrue result ↔ FitsVersion1 steps.now }
{
    version_fits(Version::First, steps)
}
