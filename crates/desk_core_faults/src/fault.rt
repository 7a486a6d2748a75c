// Why a stage refuses.
use elab_flat_faults::{ElabFault, FlatFault};
use mem_laws::MemFault;
use set_read::SetFault;
use set_tree_structure::Unsound;
use std::alloc::AllocError;
use std::error::Error;
use std::fmt;
use unroll_binding::BindFault;
use vlog_read_lex::ReadFault;

/// What is wrong with a module text.
#[derive(Drop)]
pub enum ModuleFault {
    /// It has more than 1,048,576 bytes.
    TooLong,
    /// It isn't read.
    Read(ReadFault),
    /// Its modules don't make a module without instances.
    Flat(FlatFault),
    /// The module without instances can't be freed of its memories.
    Mem(MemFault),
    /// The module without instances and memories has no functions.
    Elab(ElabFault),
}

// By its variant alone: what it holds has no Debug.
impl fmt::Debug for ModuleFault {
    fn fmt<W: fmt::Write>(&self, f: &mut fmt::Formatter<W>) -> fmt::Result {
        f.write_str(match self {
            ModuleFault::TooLong => "TooLong",
            ModuleFault::Read(_) => "Read",
            ModuleFault::Flat(_) => "Flat",
            ModuleFault::Mem(_) => "Mem",
            ModuleFault::Elab(_) => "Elab",
        })
    }
}

impl fmt::Display for ModuleFault {
    fn fmt<W: fmt::Write>(&self, f: &mut fmt::Formatter<W>) -> fmt::Result {
        f.write_str(match self {
            ModuleFault::TooLong => "the modules' text has more than 1,048,576 bytes",
            ModuleFault::Read(_) => "the modules can't be read",
            ModuleFault::Flat(_) => "the modules can't be flattened",
            ModuleFault::Mem(_) => "the flattened module can't be freed of its memories",
            ModuleFault::Elab(_) => "the flattened module can't be elaborated",
        })
    }
}

impl Error for ModuleFault {}

/// What is wrong with a set's text.
#[derive(Drop)]
pub enum SetStop {
    /// It has more than 1,048,576 bytes.
    TooLong,
    /// It isn't read.
    Read(SetFault),
    /// The structure of the set isn't sound.
    Graph(Unsound),
}

// By its variant alone: what it holds has no Debug.
impl fmt::Debug for SetStop {
    fn fmt<W: fmt::Write>(&self, f: &mut fmt::Formatter<W>) -> fmt::Result {
        f.write_str(match self {
            SetStop::TooLong => "TooLong",
            SetStop::Read(_) => "Read",
            SetStop::Graph(_) => "Graph",
        })
    }
}

impl fmt::Display for SetStop {
    fn fmt<W: fmt::Write>(&self, f: &mut fmt::Formatter<W>) -> fmt::Result {
        f.write_str(match self {
            SetStop::TooLong => "the set's text has more than 1,048,576 bytes",
            SetStop::Read(_) => "the set can't be read",
            SetStop::Graph(_) => "the set's structure isn't sound",
        })
    }
}

impl Error for SetStop {}

/// Why a check refuses two texts: the first stage that does, or what it was asked for.
#[derive(Drop)]
pub enum CheckFault {
    /// The module text, or its modules.
    Module(ModuleFault),
    /// The set's text, or its set.
    Set(SetStop),
    /// The set doesn't fit the design.
    Bind(BindFault),
    /// The set's report has no line of the name that was asked for.
    NoLine,
    /// The keeper of proofs failed.
    Keeper,
    /// Out of memory.
    Memory,
}

// By its variant alone where what it holds has no Debug.
impl fmt::Debug for CheckFault {
    fn fmt<W: fmt::Write>(&self, f: &mut fmt::Formatter<W>) -> fmt::Result {
        match self {
            CheckFault::Module(fault) => write!(f, "Module({fault:?})"),
            CheckFault::Set(stop) => write!(f, "Set({stop:?})"),
            CheckFault::Bind(_) => write!(f, "Bind"),
            CheckFault::NoLine => write!(f, "NoLine"),
            CheckFault::Keeper => write!(f, "Keeper"),
            CheckFault::Memory => write!(f, "Memory"),
        }
    }
}

impl fmt::Display for CheckFault {
    fn fmt<W: fmt::Write>(&self, f: &mut fmt::Formatter<W>) -> fmt::Result {
        match self {
            CheckFault::Module(fault) => write!(f, "{fault}"),
            CheckFault::Set(stop) => write!(f, "{stop}"),
            CheckFault::Bind(_) => write!(f, "the set doesn't fit the design"),
            CheckFault::NoLine => write!(f, "the report has no line of this name"),
            CheckFault::Keeper => write!(f, "the keeper of proofs failed"),
            CheckFault::Memory => write!(f, "out of memory"),
        }
    }
}

impl Error for CheckFault {}

impl From<AllocError> for CheckFault {
    ghost use Rattle.std.specs.Prelude.{◌≡◌};
    ghost use Rattle.desk_core_faults.specs.declared.fault.CheckFault.TheVariants.{Memory};

    ghost from_gives = { λ _ fault. fault ≡ Memory };

    fn from(_error: AllocError) -> CheckFault {
        CheckFault::Memory
    }
}
