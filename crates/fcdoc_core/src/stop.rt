ghost use Rattle.std.specs.Prelude.{◌≡◌};
ghost use Rattle.fcdoc_core.specs.declared.stop.Stop.TheVariants.{Memory};

use std::alloc::AllocError;

/// Why a run stops before its end.
#[derive(Clone, Copy)]
pub(crate) enum Stop {
    /// The store failed.
    Store,
    /// The sink failed.
    Sink,
    /// No memory was left.
    Memory,
}

impl From<AllocError> for Stop {
    ghost from_gives = { λ _ stop. stop ≡ Memory };

    fn from(_cause: AllocError) -> Stop {
        Stop::Memory
    }
}
