ghost use Rattle.std.specs.Prelude.{◌≡◌, ℤ, Ok};
ghost use Rattle.quantities.specs.Amounts.{IsAmount};
ghost use Rattle.quantities.specs.Decimals.{decimal_value};
ghost use Rattle.quantities.specs.Texts.{decimal_text, nine_text};

/// What `write_decimal` and `write_nine` write of an amount, `read_decimal` reads back as the same
/// amount. The function does nothing; its contract is the law.
pub fn written_amounts_are_read_back()
    ensures decimal { (a : ℤ) → IsAmount a → decimal_value (decimal_text a) ≡ Ok a }
    ensures nine { (a : ℤ) → IsAmount a → decimal_value (nine_text a) ≡ Ok a }
{}
