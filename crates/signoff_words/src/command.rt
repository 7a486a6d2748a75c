// Commands.
ghost use Rattle.std.specs.Prelude.{◌≡◌};
ghost use Rattle.signoff_words.specs.Commands.{form_of};

use desk_core_commands::Which;
use outside::Text;

/// How the operations of a set are shown.
#[derive(Clone, Copy, Debug)]
pub enum Form {
    /// As lines of words.
    Words,
    /// As a graph in Graphviz's language.
    Graph,
}

impl Form {
    /// How a machine is shown, as a graph or not.
    pub fn of(dot: bool) -> Form
        ensures { result ≡ form_of dot }
    {
        if dot { Form::Graph } else { Form::Words }
    }
}

/// What is done with a module's text and a set's.
#[derive(Drop)]
pub enum Task {
    /// Lines of the report are decided: those on the design, all, or the one of a name, whose counterexample is shown,
    /// or the least one.
    Decide(Which),
    /// The line of this name is decided, and its counterexample is shown as a waveform.
    Wave(Text),
    /// What can be met is: `reset` and each operation, or the one of this name, of which the segment that meets it is
    /// shown.
    Meet(Option<Text>),
    /// All lines are decided, and the operations of a set that is signed off are shown as a machine.
    Machine(Form),
    /// So they are, and the path is shown that the run takes whose inputs stand in the file of this name.
    Walk(Text),
    /// The names of the lines are shown, and none is decided.
    Lines,
    /// The clauses of the line of this name are shown, and nothing is decided.
    Clauses(Text),
    /// The line of a name is decided by a derivation that another solver made.
    Accept(Acceptance),
}

/// The name of a line, and that of the file that holds a derivation of its clauses.
#[derive(Drop)]
pub struct Acceptance {
    pub line: Text,
    pub proof: Text,
}

/// What is done, the names of the two files, the most steps of the solver for a line (1 to 10,000,000), how many
/// workers decide lines (1 to 64), the file in which proofs are kept (none where no option says), and whether standard
/// error is told how the work goes.
#[derive(Drop)]
pub struct Job {
    pub task: Task,
    pub module: Text,
    pub set: Text,
    pub budget: u64,
    pub workers: u32,
    pub store: Option<Text>,
    pub progress: bool,
}

/// The port that is listened at (1 to 65,535), how many connections are served (1 to 1,000,000), the file that holds
/// the desk, how many seconds a peer has for its request and as many for taking the reply (1 to 3,600), whether
/// connections without a reply don't count, and for the desk's checks the most steps of the solver for a line and the
/// workers, as for a job.
#[derive(Drop)]
pub struct Service {
    pub port: u16,
    pub count: u32,
    pub file: Text,
    pub timeout: u32,
    pub replied: bool,
    pub budget: u64,
    pub workers: u32,
}

/// A command.
#[derive(Drop)]
pub enum Command {
    /// Two texts are checked.
    Texts(Job),
    /// The generated texts of so many stages are, 1 to 64.
    Demo(u32),
    /// Connections are served.
    Serve(Service),
    /// The proofs that the file of this name keeps are moved to the newest form of records.
    Migrate(Text),
}

/// What a command wants opened: the file that holds proofs or the desk, and the port that is listened at, with the
/// seconds that a peer there has.
#[derive(Drop)]
pub struct Wants {
    pub store: Option<Text>,
    pub port: Option<u16>,
    pub timeout: u32,
}
