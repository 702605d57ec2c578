ghost use Rattle.std.specs.Prelude.{◌≡◌};
ghost use Rattle.quantities.specs.Decimals.{is_mark};

/// A byte that parts a decimal.
#[derive(Clone, Copy)]
pub enum Mark {
    /// `.`
    Point,
    /// `e` or `E`
    Exponent,
}

impl Mark {
    /// Whether a byte is this mark.
    pub fn is(self, byte: u8) -> bool
        ensures { result ≡ is_mark self byte }
    {
        match self {
            Mark::Point => byte == b'.',
            Mark::Exponent => byte == b'e' || byte == b'E',
        }
    }
}
