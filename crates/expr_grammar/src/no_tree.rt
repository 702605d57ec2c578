use std::alloc::{AllocError, AllocFailed};

/// Why no tree was read.
#[derive(Debug, Drop)]
pub(crate) enum NoTree {
    /// The tokens are none.
    Syntax,
    /// There was not enough memory.
    Memory(AllocError),
}

impl From<AllocError> for NoTree {
    ghost use Rattle.std.specs.Prelude.{◌≡◌};
    ghost use Rattle.expr_grammar.specs.declared.no_tree.NoTree.TheVariants.{Memory};

    ghost from_gives = { λ e s. s ≡ Memory e };

    fn from(e: AllocError) -> NoTree {
        NoTree::Memory(e)
    }
}

impl<T: Drop> From<AllocFailed<T>> for NoTree {
    ghost use Rattle.std.specs.Prelude.{◌≡◌, alloc_error};
    ghost use Rattle.expr_grammar.specs.declared.no_tree.NoTree.TheVariants.{Memory};

    ghost from_gives = { λ _ s. s ≡ Memory alloc_error };

    fn from(e: AllocFailed<T>) -> NoTree {
        NoTree::Memory(AllocError::from(e))
    }
}
