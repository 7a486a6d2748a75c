// Modules.

use crate::item::{Item, Parameter, PortKind, Shape};
use outside::Text;
use sqlite_items::Items;

/// A parameter of a header.
#[derive(Drop)]
pub enum HeaderParameter {
    /// `parameter [signed] [range] name = value`
    Group(Shape, Parameter),
    /// `name = value`, which repeats the sign and the range of the group before.
    Again(Parameter),
}

/// A port of a header that declares its ports.
#[derive(Drop)]
pub enum HeaderPort {
    Group(PortKind, Shape, Text),
    /// A lone name, which repeats the direction, the sign and the range of the group before.
    Again(Text),
}

/// The ports of a header.
#[derive(Drop)]
pub enum Ports {
    /// Names alone, declared in the body.
    Names(Items<Text>),
    Groups(Items<HeaderPort>),
}

/// A module of a text.
#[derive(Drop)]
pub struct Module {
    pub name: Text,
    /// None: no parameter list.
    pub parameters: Option<Items<HeaderParameter>>,
    /// None: no port.
    pub ports: Option<Ports>,
    pub items: Items<Item>,
}
