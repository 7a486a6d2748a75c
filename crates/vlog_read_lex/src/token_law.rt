ghost use Rattle.vlog_read_lex.specs.Longest.{TokensAreLongest};

/// No longer word, number or sign is spelt where a token stands.
pub fn longest_tokens()
    ensures { TokensAreLongest }
{}
