ghost use Rattle.std.specs.Prelude.{◌≡◌};
ghost use Rattle.std.specs.Str.{bytes_eq};
ghost use Rattle.vlog_tree.specs.Signs.{infix_of, unary_of, cast_of, span_of, is_keyword, is_reserved, binary_level, infix_level};

use crate::expr::{Binary, Cast, Infix, Span, Unary};

/// Whether two texts are one.
pub fn is(sign: &[u8], text: &[u8]) -> bool
    ensures { result ≡ bytes_eq sign.now text.now }
{
    sign == text
}

impl Binary {
    /// How tightly it binds: 2 for `||` up to 11 for `*`.
    pub fn level(self) -> u8
        ensures { result ≡ binary_level self }
    {
        match self {
            Binary::Mul | Binary::Div | Binary::Rem => 11,
            Binary::Add | Binary::Sub => 10,
            Binary::Shl | Binary::Shr | Binary::ArithmeticShl | Binary::ArithmeticShr => 9,
            Binary::Less | Binary::LessEqual | Binary::Greater | Binary::GreaterEqual => 8,
            Binary::Equal | Binary::NotEqual => 7,
            Binary::BitAnd => 6,
            Binary::BitXor | Binary::BitXnor => 5,
            Binary::BitOr => 4,
            Binary::LogicalAnd => 3,
            Binary::LogicalOr => 2,
        }
    }
}

impl Infix {
    /// How tightly it binds: 1 for `?`, else the level of the binary operator.
    pub fn level(self) -> u8
        ensures { result ≡ infix_level self }
    {
        match self {
            Infix::Binary(op) => op.level(),
            Infix::Choice => 1,
        }
    }

    /// The operator that a sign is between two operands, in a text of modules or, where `set` is true, of a set: a set
    /// has neither `/` nor `%`.
    #[tactic(auto, unfolding(crate::specs::Signs::infix_of))]
    pub fn of_sign(set: bool, sign: &[u8]) -> Option<Infix>
        ensures { result ≡ infix_of set sign.now }
    {
        if is(sign, b"*") {
            Some(Infix::Binary(Binary::Mul))
        } else if is(sign, b"/") {
            if set {
                None
            } else {
                Some(Infix::Binary(Binary::Div))
            }
        } else if is(sign, b"%") {
            if set {
                None
            } else {
                Some(Infix::Binary(Binary::Rem))
            }
        } else if is(sign, b"+") {
            Some(Infix::Binary(Binary::Add))
        } else if is(sign, b"-") {
            Some(Infix::Binary(Binary::Sub))
        } else if is(sign, b"<<") {
            Some(Infix::Binary(Binary::Shl))
        } else if is(sign, b">>") {
            Some(Infix::Binary(Binary::Shr))
        } else if is(sign, b"<<<") {
            Some(Infix::Binary(Binary::ArithmeticShl))
        } else if is(sign, b">>>") {
            Some(Infix::Binary(Binary::ArithmeticShr))
        } else if is(sign, b"<") {
            Some(Infix::Binary(Binary::Less))
        } else if is(sign, b"<=") {
            Some(Infix::Binary(Binary::LessEqual))
        } else if is(sign, b">") {
            Some(Infix::Binary(Binary::Greater))
        } else if is(sign, b">=") {
            Some(Infix::Binary(Binary::GreaterEqual))
        } else if is(sign, b"==") {
            Some(Infix::Binary(Binary::Equal))
        } else if is(sign, b"!=") {
            Some(Infix::Binary(Binary::NotEqual))
        } else if is(sign, b"&") {
            Some(Infix::Binary(Binary::BitAnd))
        } else if is(sign, b"^") {
            Some(Infix::Binary(Binary::BitXor))
        } else if is(sign, b"^~") {
            Some(Infix::Binary(Binary::BitXnor))
        } else if is(sign, b"~^") {
            Some(Infix::Binary(Binary::BitXnor))
        } else if is(sign, b"|") {
            Some(Infix::Binary(Binary::BitOr))
        } else if is(sign, b"&&") {
            Some(Infix::Binary(Binary::LogicalAnd))
        } else if is(sign, b"||") {
            Some(Infix::Binary(Binary::LogicalOr))
        } else if is(sign, b"?") {
            Some(Infix::Choice)
        } else {
            None
        }
    }
}

impl Unary {
    /// The operator that a sign is before its operand.
    #[tactic(auto, unfolding(crate::specs::Signs::unary_of))]
    pub fn of_sign(sign: &[u8]) -> Option<Unary>
        ensures { result ≡ unary_of sign.now }
    {
        match sign {
            b"+" => Some(Unary::Plus),
            b"-" => Some(Unary::Minus),
            b"!" => Some(Unary::LogicalNot),
            b"~" => Some(Unary::BitNot),
            b"&" => Some(Unary::ReduceAnd),
            b"~&" => Some(Unary::ReduceNand),
            b"|" => Some(Unary::ReduceOr),
            b"~|" => Some(Unary::ReduceNor),
            b"^" => Some(Unary::ReduceXor),
            b"~^" | b"^~" => Some(Unary::ReduceXnor),
            _ => None,
        }
    }
}

impl Cast {
    /// The cast that a word is.
    #[tactic(auto, unfolding(crate::specs::Signs::cast_of))]
    pub fn of_word(word: &[u8]) -> Option<Cast>
        ensures { result ≡ cast_of word.now }
    {
        if is(word, b"$signed") {
            Some(Cast::Signed)
        } else if is(word, b"$unsigned") {
            Some(Cast::Unsigned)
        } else {
            None
        }
    }
}

impl Span {
    /// The kind of part-select that a sign between its two expressions says.
    #[tactic(auto, unfolding(crate::specs::Signs::span_of))]
    pub fn of_sign(sign: &[u8]) -> Option<Span>
        ensures { result ≡ span_of sign.now }
    {
        match sign {
            b":" => Some(Span::Fixed),
            b"+:" => Some(Span::Up),
            b"-:" => Some(Span::Down),
            _ => None,
        }
    }
}

// Whether a word is one of the module grammar.
#[tactic(auto, unfolding(crate::specs::Signs::is_keyword))]
fn is_keyword(word: &[u8]) -> bool
    ensures { result ≡ is_keyword word.now }
{
    is(word, b"always")
        || is(word, b"assign")
        || is(word, b"begin")
        || is(word, b"case")
        || is(word, b"casez")
        || is(word, b"default")
        || is(word, b"else")
        || is(word, b"end")
        || is(word, b"endcase")
        || is(word, b"endmodule")
        || is(word, b"if")
        || is(word, b"input")
        || is(word, b"localparam")
        || is(word, b"module")
        || is(word, b"negedge")
        || is(word, b"or")
        || is(word, b"output")
        || is(word, b"parameter")
        || is(word, b"posedge")
        || is(word, b"reg")
        || is(word, b"signed")
        || is(word, b"wire")
}

/// Whether a word is no name. In a text of modules these are the words of the grammar, `$signed` and `$unsigned`; in a
/// set (`set` is true) `$signed` and `$unsigned` alone.
#[tactic(auto, unfolding(crate::specs::Signs::is_reserved))]
pub fn is_reserved(set: bool, word: &[u8]) -> bool
    ensures { result ≡ is_reserved set word.now }
{
    is(word, b"$signed") || is(word, b"$unsigned") || (if set { false } else { is_keyword(word) })
}
