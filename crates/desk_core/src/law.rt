// The laws.
ghost use Rattle.desk_core.specs.Again.{EmptyIsDesk, ModuleIsStoredAgain, SetIsStoredAgain, SignedAgain};
ghost use Rattle.desk_core.specs.Agreed.{ReportsAgree};
ghost use Rattle.desk_core.specs.Signed.{NumbersMean, SignOffsMean};

/// Where a desk's reports are of its texts, each sign-off means that its two texts were signed off: every constrained
/// run of the modules from reset satisfies the set, and the set is complete. So it is of the texts whose sign-off has a
/// number. The call itself does nothing.
pub fn sign_offs_mean()
    ensures each { SignOffsMean }
    ensures number { NumbersMean }
{}

/// Two reports of the same texts for the same lines tell them in one order, and wherever neither is spent with one
/// verdict; without a spent line they are equal byte for byte. So it is whatever the keepers held, whichever helpers
/// were asked, however many workers there were, and whatever the budgets.
pub fn reports_agree()
    ensures { ReportsAgree }
{}

/// Empty tables are a desk.
pub fn empty_tables_are_a_desk()
    ensures { EmptyIsDesk }
{}

/// A text that was stored is stored again, and a block that was signed has the same number again; the tables stay as
/// they are.
pub fn commands_repeat()
    ensures modules { ModuleIsStoredAgain }
    ensures sets { SetIsStoredAgain }
    ensures signs { SignedAgain }
{}
