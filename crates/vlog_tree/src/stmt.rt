// Statements.

use crate::expr::{Expr, Span};
use outside::Text;
use sqlite_items::{Boxed, Items};

/// The left side of an assignment.
#[derive(Drop)]
pub enum Lval {
    Name(Text),
    /// `name[index]`
    Select(Text, Expr),
    /// `name[a:b]`, `name[a+:b]` or `name[a-:b]`
    Part(Text, Span, Expr, Expr),
    /// `{a, b}`, assigned from the left
    Concat(Items<Lval>),
}

/// How a case statement compares its labels.
#[derive(Clone, Copy, PartialEq, Eq)]
pub enum CaseKind {
    /// All bits.
    Case,
    /// All bits but those of a label's digits `?` and `z`.
    Casez,
}

/// The labels of a case item.
#[derive(Drop)]
pub enum Labels {
    Exprs(Items<Expr>),
    Default,
}

/// A case item: its labels and its statement.
#[cycle(stmt)]
#[derive(Drop)]
pub struct CaseItem {
    pub labels: Labels,
    pub body: Stmt,
}

/// A statement, one variant for each form of the grammar.
#[cycle(stmt)]
#[derive(Drop)]
pub enum Stmt {
    /// `;`
    Empty,
    /// `begin .. end`, with its name where it has one
    Block(Option<Text>, Items<Stmt>),
    /// `if (..) ..`
    If(Expr, Boxed<Stmt>),
    /// `if (..) .. else ..`
    IfElse(Expr, Boxed<Stmt>, Boxed<Stmt>),
    Case(CaseKind, Expr, Items<CaseItem>),
    /// `left = right;`
    Blocking(Lval, Expr),
    /// `left <= right;`
    Nonblocking(Lval, Expr),
}

/// `posedge name` or `negedge name`
#[derive(Drop)]
pub struct Edge {
    pub rising: bool,
    pub name: Text,
}

/// What an `always` waits for.
#[derive(Drop)]
pub enum Events {
    /// `@*` or `@(*)`
    All,
    Edges(Items<Edge>),
    Names(Items<Text>),
}
