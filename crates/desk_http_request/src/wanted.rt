// What a request asks for.

use desk_core_commands::Command;

/// A file of the page that shows the desk in a browser.
#[derive(Clone, Copy, Debug, PartialEq, Eq)]
pub enum PageFile {
    /// The page itself.
    Html,
    /// How it looks.
    Style,
    /// What it does.
    Script,
}

/// What a request asks for.
#[derive(Drop)]
pub enum Wanted {
    /// That the desk carries out this command.
    Act(Command),
    /// A file of the page. The desk has no part in it.
    File(PageFile),
}
