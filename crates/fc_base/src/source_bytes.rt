ghost use Rattle.std.specs.Prelude.{◌≡◌, IfOk};

use std::alloc::{AllocError, Global};
use std::marker::Model;

/// Bytes of a document that are kept as they stand, of any length. They are seen as a list.
#[derive(Debug, Drop)]
pub struct SourceBytes {
    bytes: Vec<u8>,
}

impl Model for SourceBytes {
    ghost use Rattle.std.specs.Prelude.{List, ℕ};

    ghost Value = { List ℕ };

    ghost view = { λ b. b.bytes.items };
}

impl SourceBytes {
    /// A copy of the bytes.
    pub fn of(alloc: Global, bytes: &[u8]) -> Result<SourceBytes, AllocError>
        ensures { IfOk result (λ kept. kept ≡ bytes.now) }
    {
        let bytes = bytes.to_vec(alloc)?;
        Ok(SourceBytes { bytes })
    }

    /// Equal source bytes.
    pub fn copy(&self, alloc: Global) -> Result<SourceBytes, AllocError>
        ensures { IfOk result (λ kept. kept ≡ self.now) }
    {
        SourceBytes::of(alloc, self.bytes())
    }

    /// The bytes.
    pub fn bytes(&self) -> &[u8]
        ensures { result.now ≡ self.now }
    {
        self.bytes.as_slice()
    }
}
