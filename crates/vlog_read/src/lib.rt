//! Reads the modules of a text from its tokens.
#![tactic(auto)]

mod declaration;
mod events;
mod header;
mod instance;
mod item;
mod list;
mod module;
mod part;
mod parts;
mod read;

pub use module::read_module_list;
pub use read::read_modules;
pub use vlog_read_lex::ReadFault;
