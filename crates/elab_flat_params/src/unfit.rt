// Why an expression isn't a constant, a range isn't one of bits, and a parameter has no value.

use std::alloc::AllocError;

/// Why an expression has no constant value in its place.
#[derive(Clone, Copy, PartialEq, Eq)]
pub enum Unfit {
    /// It names something that isn't one of the parameters that it is read over.
    Name,
    /// It isn't well formed: a length in it isn't from 1 to 64 bits, or a part-select leaves its vector.
    Length,
    /// A divisor is 0, in it or in one of its bounds, widths and counts.
    Divisor,
}

/// Why a range isn't `[m:l]` with constants m >= l >= 0 and from 1 to 64 bits.
#[derive(Clone, Copy, PartialEq, Eq)]
pub enum BadRange {
    /// m has no constant value.
    High(Unfit),
    /// l has no constant value.
    Low(Unfit),
    /// m < l, or l < 0.
    Order,
    /// It has more than 64 bits.
    Long,
}

/// Why a parameter has no value.
#[derive(Clone, Copy, PartialEq, Eq)]
pub enum BadParam {
    Range(BadRange),
    /// The value of its declaration, also where it is overridden.
    Value(Unfit),
    /// The value that overrides it.
    Given(Unfit),
}

/// Why a range isn't `[0:n]` with a constant n >= 0 and from 1 to 64 words.
#[derive(Clone, Copy, PartialEq, Eq)]
pub enum BadWords {
    /// The first number has no constant value.
    First(Unfit),
    /// The last one has none.
    Last(Unfit),
    /// The first isn't 0, or the last is below 0.
    Order,
    /// There are more than 64.
    Many,
}

/// Why a declaration declares no signal.
#[derive(Clone, Copy, PartialEq, Eq)]
pub enum BadSignal {
    Bits(BadRange),
    Words(BadWords),
    /// Memory is wanting.
    Memory,
}

impl From<AllocError> for BadSignal {
    ghost use Rattle.std.specs.Prelude.{◌≡◌};
    ghost use Rattle.elab_flat_params.specs.declared.unfit.BadSignal.TheVariants.{Memory};

    ghost from_gives = { λ _ fault. fault ≡ Memory };

    fn from(_error: AllocError) -> BadSignal {
        BadSignal::Memory
    }
}
