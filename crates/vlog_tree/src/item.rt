// Items of a module.

use crate::expr::Expr;
use crate::stmt::{Events, Lval, Stmt};
use outside::Text;
use sqlite_items::Items;

/// `[high:low]`
#[derive(Drop)]
pub struct Range {
    pub high: Expr,
    pub low: Expr,
}

/// The sign and the range of a declaration.
#[derive(Drop)]
pub struct Shape {
    pub signed: bool,
    pub range: Option<Range>,
}

/// The direction of a port; the word `wire` says nothing.
#[derive(Clone, Copy, PartialEq, Eq)]
pub enum PortKind {
    Input,
    Output,
    OutputReg,
}

/// A name of a `wire` item, with the right side of its continuous assignment where it has one.
#[derive(Drop)]
pub struct Wire {
    pub name: Text,
    pub value: Option<Expr>,
}

/// A name of a `reg` item, with the range of its words where it is a memory.
#[derive(Drop)]
pub struct Register {
    pub name: Text,
    pub words: Option<Range>,
}

/// `name = value` of a `parameter` or `localparam`.
#[derive(Drop)]
pub struct Parameter {
    pub name: Text,
    pub value: Expr,
}

/// A continuous assignment.
#[derive(Drop)]
pub struct Assign {
    pub left: Lval,
    pub right: Expr,
}

/// `.port(value)`; without a value the port is left open.
#[derive(Drop)]
pub struct Connection {
    pub port: Text,
    pub value: Option<Expr>,
}

/// Connections or overrides.
#[derive(Drop)]
pub enum Args {
    /// By position.
    Exprs(Items<Expr>),
    /// By name.
    Named(Items<Connection>),
}

/// An instance of a module.
#[derive(Drop)]
pub struct Instance {
    pub name: Text,
    /// None: `()`.
    pub args: Option<Args>,
}

/// An item of a module's body, one variant for each form of the grammar.
#[derive(Drop)]
pub enum Item {
    Ports(PortKind, Shape, Items<Text>),
    Wires(Shape, Items<Wire>),
    Registers(Shape, Items<Register>),
    Parameters(Shape, Items<Parameter>),
    LocalParameters(Shape, Items<Parameter>),
    Assigns(Items<Assign>),
    Always(Events, Stmt),
    /// The module's name, the overrides, and the instances.
    Instances(Text, Option<Args>, Items<Instance>),
}
