// Expressions.

use crate::token::Number;
use outside::Text;
use sqlite_items::{Boxed, Items};

/// A name, and the offset in cycles of the row that it is read in. The offset is 0 in a module.
#[derive(Drop)]
pub struct Name {
    pub text: Text,
    pub offset: u32,
}

/// What a parameter's name stands for: its length in bits, the number of its lowest bit, its sign and its value.
#[derive(Clone, Copy, PartialEq, Eq)]
pub struct Constant {
    pub width: u8,
    pub low: u64,
    pub signed: bool,
    pub value: u64,
}

/// The unary operators of IEEE 1364-2005 section 5.1, reductions among them.
#[derive(Clone, Copy, PartialEq, Eq)]
pub enum Unary {
    /// `+a`
    Plus,
    /// `-a`
    Minus,
    /// `!a`
    LogicalNot,
    /// `~a`
    BitNot,
    /// `&a`
    ReduceAnd,
    /// `~&a`
    ReduceNand,
    /// `|a`
    ReduceOr,
    /// `~|a`
    ReduceNor,
    /// `^a`
    ReduceXor,
    /// `~^a` and `^~a`
    ReduceXnor,
}

/// The binary operators of IEEE 1364-2005 section 5.1.
#[derive(Clone, Copy, PartialEq, Eq)]
pub enum Binary {
    Mul,
    Div,
    Rem,
    Add,
    Sub,
    /// `<<`
    Shl,
    /// `>>`
    Shr,
    /// `<<<`
    ArithmeticShl,
    /// `>>>`
    ArithmeticShr,
    Less,
    LessEqual,
    Greater,
    GreaterEqual,
    Equal,
    NotEqual,
    /// `a & b`
    BitAnd,
    /// `a ^ b`
    BitXor,
    /// `a ~^ b` and `a ^~ b`
    BitXnor,
    /// `a | b`
    BitOr,
    /// `a && b`
    LogicalAnd,
    /// `a || b`
    LogicalOr,
}

/// `$signed` and `$unsigned`.
#[derive(Clone, Copy, PartialEq, Eq)]
pub enum Cast {
    Signed,
    Unsigned,
}

/// How a part-select gives its bits.
#[derive(Clone, Copy, PartialEq, Eq)]
pub enum Span {
    /// `[high:low]`
    Fixed,
    /// `[base +: width]`
    Up,
    /// `[base -: width]`
    Down,
}

/// What may stand between two operands.
#[derive(Clone, Copy, PartialEq, Eq)]
pub enum Infix {
    Binary(Binary),
    /// `?`
    Choice,
}

/// An expression, one variant for each form of the grammar, and two that stand in a module without instances alone:
/// there a select of a parameter has the parameter's number in the name's place.
#[derive(Drop)]
pub enum Expr {
    Number(Number),
    Name(Name),
    /// `name[index]`
    Select(Name, Boxed<Expr>),
    /// `name[a:b]`, `name[a+:b]` or `name[a-:b]`
    Part(Name, Span, Boxed<Expr>, Boxed<Expr>),
    /// `name[index]`, where the name is a parameter's.
    ConstantSelect(Constant, Boxed<Expr>),
    /// `name[a:b]`, `name[a+:b]` or `name[a-:b]`, where the name is a parameter's.
    ConstantPart(Constant, Span, Boxed<Expr>, Boxed<Expr>),
    /// `$signed(inner)` or `$unsigned(inner)`
    Cast(Cast, Boxed<Expr>),
    /// `(inner)`
    Paren(Boxed<Expr>),
    /// `{a, b}`
    Concat(Items<Expr>),
    /// `{count{a, b}}`
    Repeat(Boxed<Expr>, Items<Expr>),
    Unary(Unary, Boxed<Expr>),
    Binary(Binary, Boxed<Expr>, Boxed<Expr>),
    /// `condition ? a : b`
    Choice(Boxed<Expr>, Boxed<Expr>, Boxed<Expr>),
}
