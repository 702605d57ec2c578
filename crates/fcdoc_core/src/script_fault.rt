ghost use Rattle.std.specs.Prelude.{◌≡◌, alloc_error, string_bytes, IfOk, IfSome, IsSome};
ghost use Rattle.fcdoc_core.specs.ScriptFaults.{cause_told};
ghost use Rattle.fcdoc_core.specs.Replies.{unreadable_text};
ghost use Rattle.fcdoc_core.specs.declared.script_fault.ScriptFault.TheVariants.{Memory};

use std::alloc::{AllocError, AllocFailed, Global};
use thiserror::Error;

/// Why bytes were not read as a script. Lines are counted from 1, skipped ones among them.
#[derive(Debug, Drop, Error)]
pub enum ScriptFault {
    /// The line with this number is not UTF-8.
    #[error("line {0} is not UTF-8")]
    NotUtf8(u64),
    /// The line with this number has more than 4,096 bytes.
    #[error("line {0} has more than 4,096 bytes")]
    LineTooLong(u64),
    /// There are more than 100,000 lines.
    #[error("more than 100,000 lines")]
    TooManyLines,
    /// No memory was left, which says nothing of the bytes.
    #[error("out of memory")]
    Memory(AllocError),
}

impl From<AllocError> for ScriptFault {
    ghost from_gives = { λ cause e. e ≡ Memory cause };

    fn from(cause: AllocError) -> ScriptFault {
        ScriptFault::Memory(cause)
    }
}

impl<T: Drop> From<AllocFailed<T>> for ScriptFault {
    ghost from_gives = { λ _ e. e ≡ Memory alloc_error };

    fn from(_cause: AllocFailed<T>) -> ScriptFault {
        ScriptFault::Memory(AllocError)
    }
}

impl ScriptFault {
    /// The line of a run whose script is refused, with the LF: `script refused NotUtf8 2`,
    /// `script refused LineTooLong 2` or `script refused TooManyLines`. There is none for want of memory.
    pub(crate) fn write(&self, alloc: Global) -> Result<String, AllocError>
        requires { IsSome (cause_told self.now) }
        ensures { IfOk result (λ text. IfSome (cause_told self.now) (λ cause. string_bytes text ≡ unreadable_text cause)) }
    {
        match self {
            ScriptFault::NotUtf8(line) => format!(in alloc; "script refused NotUtf8 {line}\n"),
            ScriptFault::LineTooLong(line) => format!(in alloc;
                "script refused LineTooLong {line}\n"
            ),
            ScriptFault::TooManyLines => String::from_str(alloc, "script refused TooManyLines\n"),
            ScriptFault::Memory(_) => unreachable!(),
        }
    }
}
