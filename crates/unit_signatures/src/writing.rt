ghost use Rattle.std.specs.Prelude.{◌≡◌, ◌+◌, ◌++◌, ◌≤◌, ℕ, List, [], length};
ghost use Rattle.std.specs.Fmt.{signed_decimal};
ghost use Rattle.arrayvec.specs.ArrayString.{array_string_len};
ghost use Rattle.unit_signatures.specs.UnitTexts.{factor_text, unit_text};
ghost use Rattle.unit_signatures.specs.Written.{behind, with_factor};

use crate::unit::Unit;
use arrayvec::ArrayString;
use itoa::Buffer;

impl Unit {
    /// Writes the base units with an exponent other than 0, in order, joined by `*`, each with `^n`
    /// unless n is 1, as in `mm*kg*s^-2`, into the empty `out`; the pure unit has the empty text.
    pub fn write(&self, out: &mut ArrayString<96>)
        requires { out.old.bytes ≡ [] }
        ensures { out.new.bytes ≡ unit_text self.now }
    {
        push_factor("mm", self.exponents[0], out);
        push_factor("kg", self.exponents[1], out);
        push_factor("s", self.exponents[2], out);
        push_factor("A", self.exponents[3], out);
        push_factor("K", self.exponents[4], out);
        push_factor("mol", self.exponents[5], out);
        push_factor("cd", self.exponents[6], out);
        push_factor("deg", self.exponents[7], out);
    }
}

/// Appends a base unit with its exponent, unless that is 0.
fn push_factor(base: &str, exponent: i8, out: &mut ArrayString<96>)
    requires { array_string_len out.old + length base.now ≤ 90 }
    ensures text { out.new.bytes ≡ with_factor out.old.bytes base.now exponent }
    ensures room { array_string_len out.new ≤ array_string_len out.old + length base.now + 6 }
{
    if exponent != 0 {
        push_star(out);
        push_power(base, exponent, out);
    }
}

/// Appends the `*` between two factors, where one stands there.
fn push_star(out: &mut ArrayString<96>)
    requires { array_string_len out.old ≤ 95 }
    ensures text { (piece : List ℕ) → out.new.bytes ++ piece ≡ behind out.old.bytes piece }
    ensures room { array_string_len out.new ≤ array_string_len out.old + 1 }
{
    if !out.is_empty() {
        out.push('*');
    }
}

/// Appends a base unit with its exponent, which is left out where it is 1.
fn push_power(base: &str, exponent: i8, out: &mut ArrayString<96>)
    requires { array_string_len out.old + length base.now ≤ 91 }
    ensures text { out.new.bytes ≡ out.old.bytes ++ factor_text base.now exponent }
    ensures room { array_string_len out.new ≤ array_string_len out.old + length base.now + 5 }
{
    out.push_str(base);
    if exponent != 1 {
        out.push('^');
        push_exponent(exponent, out);
    }
}

/// Appends an exponent.
fn push_exponent(exponent: i8, out: &mut ArrayString<96>)
    requires { array_string_len out.old ≤ 92 }
    ensures text { out.new.bytes ≡ out.old.bytes ++ signed_decimal exponent }
    ensures room { array_string_len out.new ≤ array_string_len out.old + 4 }
{
    let mut buffer = Buffer::new();
    out.push_str(buffer.format(exponent));
}
