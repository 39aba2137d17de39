// How commands and steps end.
use thiserror::Error;

/// How the console goes on behind a command.
#[derive(Clone, Copy, Debug, PartialEq, Eq)]
pub enum Next {
    Goes,
    Waits,
    Hands,
    Quits,
}

/// What ended a command in its reply.
#[derive(Clone, Copy, Debug, PartialEq, Eq, Error)]
pub enum Fault {
    /// A call of the folder of this number failed.
    #[error("folder {folder}: read fault")]
    Folder { folder: u32 },
    /// A put of the reply failed.
    #[error("write fault")]
    Write,
    /// The store ran out of memory.
    #[error("out of memory")]
    Memory,
}

/// How a step of a session ended.
#[derive(Clone, Copy, Debug, PartialEq, Eq)]
pub enum StepEnd {
    /// The line was run, and the session goes on.
    Went,
    /// `quit` was executed.
    Quit,
    /// A call of the folder of this number failed.
    FolderFault { folder: u32 },
    /// A put of a reply failed.
    WriteFault,
    /// The store ran out of memory. A frugal one doesn't.
    OutOfMemory,
}
