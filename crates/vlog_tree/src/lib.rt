//! Tokens and syntax trees of modules, and what they mean.
#![tactic(auto)]

mod expr;
mod item;
mod module;
mod signs;
mod stmt;
mod token;
mod valuation;

pub use expr::{Binary, Cast, Constant, Expr, Infix, Name, Span, Unary};
pub use item::{
    Args, Assign, Connection, Instance, Item, Parameter, PortKind, Range, Register, Shape, Wire,
};
pub use module::{HeaderParameter, HeaderPort, Module, Ports};
pub use signs::{is, is_reserved};
pub use stmt::{CaseItem, CaseKind, Edge, Events, Labels, Lval, Stmt};
pub use token::{Kind, Number, Token};
pub use valuation::{Entry, Valuation};
