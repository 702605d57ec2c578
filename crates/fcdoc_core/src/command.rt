ghost use Rattle.std.specs.Prelude.{◌≡◌};
ghost use Rattle.fcdoc_core.specs.declared.command.CommandFault.TheVariants.{Memory};

use doc_rules::Edit;
use object_paths::Path;
use std::alloc::AllocError;
use thiserror::Error;

/// A command of a script.
#[derive(Debug, Drop)]
pub enum Command {
    /// An edit of the document.
    Edit(Edit),
    /// `get NAME.PROP`: asks for the value of a slot.
    Get(Path),
    /// `expr NAME.PROP`: asks for the expression to which a slot is bound.
    Expression(Path),
    /// `recompute`: works the outcomes of all slots out.
    Recompute,
}

/// Why a line was not read as a command.
#[derive(Debug, Drop, Error)]
pub enum CommandFault {
    /// It is none of the commands that are built, or has a control character other than tab.
    #[error("no command that is built")]
    NotBuilt,
    /// No memory was left, which says nothing of the line.
    #[error("out of memory")]
    Memory(AllocError),
}

impl From<AllocError> for CommandFault {
    ghost from_gives = { λ cause e. e ≡ Memory cause };

    fn from(cause: AllocError) -> CommandFault {
        CommandFault::Memory(cause)
    }
}
