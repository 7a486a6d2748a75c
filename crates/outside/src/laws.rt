// A law on the tables of a keeper.
ghost use Rattle.outside.specs.Tables.{NextKeyIsLeast};

/// In all tables, the key that comes next is the least one above the given one in byte order, or the least of all; none
/// comes only where no key stands above. The call itself does nothing.
pub fn next_key_is_least()
    ensures { NextKeyIsLeast }
{}
