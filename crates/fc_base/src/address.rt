ghost use Rattle.std.specs.Prelude.{◌≡◌, ◌+◌, ◌≤◌, ◌<◌, ◌/◌, ◌%◌, ◌-◌, ◌⊎◌, ◌↔◌, ◌++◌, ◌∷◌, ◌==◌, [], length, take, drop, IsTrue, IsNone, IfSome, MatchOption, Some};
ghost use Rattle.std.specs.Char.{is_ascii_uppercase, is_ascii_digit};
ghost use Rattle.std.specs.Int.{IsInRange};
ghost use Rattle.std.specs.List.{list_all};
ghost use Rattle.std.specs.Fmt.{decimal};
ghost use Rattle.arrayvec.specs.ArrayString.{array_string_len};
ghost use Rattle.fc_base.specs.Places.{Place, Spells, mark_text, column_text, address_text, column_of, address_of, is_letters_and_digits, looks_like_address, unmarked, is_within};
ghost use Rattle.fc_base.specs.AddressParts.{is_marked, after_mark, letter_count, row_of};

use arrayvec::ArrayString;
use std::marker::Model;

/// A cell's place: columns 1 to 702 for A to ZZ, rows 1 to 16384. A marked part is fixed, as in
/// `$A$1`.
#[derive(Clone, Copy, Debug, PartialEq, Eq, PartialOrd, Ord)]
pub struct Address {
    pub column: u16,
    pub row: u16,
    pub fixed_column: bool,
    pub fixed_row: bool,
}

impl Model for Address {
    ghost use Rattle.fc_base.specs.Places.{Place};

    ghost Value = { Place };

    ghost use Rattle.fc_base.specs.Places.{IsPlace};

    ghost view = { λ a. record { column = a.column; row = a.row; fixed_column = a.fixed_column; fixed_row = a.fixed_row } };

    ghost invariant = { λ a. IsPlace (record { column = a.column; row = a.row; fixed_column = a.fixed_column; fixed_row = a.fixed_row }) };

    ghost inverse = { λ p. record { column = p.column; row = p.row; fixed_column = p.fixed_column; fixed_row = p.fixed_row } };
}

/// The last row of a sheet.
const LAST_ROW: u32 = 16384;

/// Whether `$` stands in front.
fn is_marked(text: &[u8]) -> bool
    ensures { result ≡ is_marked text.now }
{
    text.first() == Some(&b'$')
}

/// What follows the `$` in front, if there is one.
fn after_mark(text: &[u8]) -> &[u8]
    ensures { result.now ≡ after_mark text.now }
{
    match text {
        [b'$', rest @ ..] => rest,
        _ => text,
    }
}

/// The number of a letter: A is 1, Z is 26.
fn letter_number(letter: u8) -> u16
    requires { IsInRange 65 90 letter }
    ensures { result ≡ letter - 64 }
{
    u16::from(letter - b'@')
}

/// The column that the letters in front name, two at most, and what follows them.
fn split_column(text: &[u8]) -> Option<(u16, &[u8])>
    ensures none { IsNone result ↔ (letter_count text.now ≡ 0) }
    ensures column { IfSome result (λ r. r.0 ≡ column_of (take (letter_count text.now) text.now)) }
    ensures rest { IfSome result (λ r. r.1.now ≡ drop (letter_count text.now) text.now) }
{
    match text {
        [first @ b'A'..=b'Z', second @ b'A'..=b'Z', rest @ ..] => {
            Some((letter_number(*first) * 26 + letter_number(*second), rest))
        }
        [first @ b'A'..=b'Z', rest @ ..] => Some((letter_number(*first), rest)),
        _ => None,
    }
}

/// The row that the text spells: digits without a leading zero, up to 16384.
fn read_row(text: &[u8]) -> Option<u16>
    ensures { result ≡ row_of text.now }
{
    if text.is_empty() || text[0] == b'0' {
        return None;
    }
    let mut row: u32 = 0;
    for digit in text {
        if !digit.is_ascii_digit() {
            return None;
        }
        row = row * 10 + u32::from(*digit - b'0');
        if row > LAST_ROW {
            return None;
        }
    }
    Some(row as u16)
}

/// Writes the `$` of a fixed part.
fn push_mark(marked: bool, out: &mut ArrayString<16>)
    requires { array_string_len out.old < 16 }
    ensures { out.new.bytes ≡ out.old.bytes ++ mark_text marked }
{
    if marked {
        out.push('$');
    }
}

/// Writes a digit.
fn push_digit(digit: u16, out: &mut ArrayString<16>)
    requires digit { digit < 10 }
    requires room { array_string_len out.old < 16 }
    ensures { out.new.bytes ≡ out.old.bytes ++ (48 + digit) ∷ [] }
{
    out.push(char::from(b'0' + digit as u8));
}

/// Writes a number in decimal.
fn push_decimal(number: u16, out: &mut ArrayString<16>)
    requires { array_string_len out.old + length (decimal number) ≤ 16 }
    ensures { out.new.bytes ≡ out.old.bytes ++ decimal number }
{
    if number < 10 {
        push_digit(number, out);
    } else {
        push_decimal(number / 10, out);
        push_digit(number % 10, out);
    }
}

/// Writes a column in letters.
fn push_column(column: u16, out: &mut ArrayString<16>)
    requires low { 1 ≤ column }
    requires high { column ≤ 702 }
    requires room { array_string_len out.old ≤ 14 }
    ensures { out.new.bytes ≡ out.old.bytes ++ column_text column }
{
    if column <= 26 {
        out.push(char::from(b'@' + column as u8));
    } else {
        out.push(char::from(b'@' + ((column - 1) / 26) as u8));
        out.push(char::from(b'A' + ((column - 1) % 26) as u8));
    }
}

/// Whether each byte is a capital letter A to Z.
fn are_capitals(text: &[u8]) -> bool
    ensures { result ≡ list_all is_ascii_uppercase text.now }
{
    text.iter().all(u8::is_ascii_uppercase)
}

/// Whether each byte is a digit.
fn are_digits(text: &[u8]) -> bool
    ensures { result ≡ list_all is_ascii_digit text.now }
{
    text.iter().all(u8::is_ascii_digit)
}

/// Whether that many capital letters stand in front and then digits, one at least.
fn is_letters_and_digits(text: &[u8], letters: usize) -> bool
    ensures { result ≡ is_letters_and_digits letters text.now }
{
    if text.len() <= letters {
        return false;
    }
    let (front, back) = text.split_at(letters);
    are_capitals(front) && are_digits(back)
}

impl Address {
    /// Whether a name looks like an address: one or two capital letters A to Z and then digits
    /// alone, one at least. `A0` and `ZZ99999` do, and are none.
    pub fn looks_like(text: &str) -> bool
        ensures { result ≡ looks_like_address text.now }
    {
        let text = text.as_bytes();
        is_letters_and_digits(text, 1) || is_letters_and_digits(text, 2)
    }

    /// The same cell without marks.
    pub fn unmarked(&self) -> Address
        ensures { result ≡ unmarked self.now }
    {
        Address {
            column: self.column,
            row: self.row,
            fixed_column: false,
            fixed_row: false,
        }
    }

    /// Reads an address or a marked address, as `B7` or `$B7`. None comes exactly where the text
    /// is neither.
    pub fn read(text: &str) -> Option<Address>
        ensures value { result ≡ address_of text.now }
        ensures spelled { (p : Place) → (address_of text.now ≡ Some p) ↔ Spells text.now p }
    {
        let text = text.as_bytes();
        let (column, rest) = split_column(after_mark(text))?;
        let row = read_row(after_mark(rest))?;
        Some(Address {
            column,
            row,
            fixed_column: is_marked(text),
            fixed_row: is_marked(rest),
        })
    }

    /// Writes the address in its one spelling.
    pub fn write(&self, out: &mut ArrayString<16>)
        requires { out.old.bytes ≡ [] }
        ensures text { out.new.bytes ≡ address_text self.now }
        ensures reads_back { address_of (address_text self.now) ≡ Some self.now }
    {
        push_mark(self.fixed_column, out);
        push_column(self.column, out);
        push_mark(self.fixed_row, out);
        push_decimal(self.row, out);
    }
}

/// A rectangle of cells, by its top left and its bottom right corner.
#[derive(Clone, Copy, Debug, PartialEq, Eq)]
pub struct Area {
    pub from: Address,
    pub to: Address,
}

impl Model for Area {
    ghost use Rattle.fc_base.specs.Places.{Block};

    ghost Value = { Block };

    ghost use Rattle.fc_base.specs.Places.{IsBlock};

    ghost view = { λ a. record { from = a.from; to = a.to } };

    ghost invariant = { λ a. IsBlock (record { from = a.from; to = a.to }) };

    ghost inverse = { λ b. record { from = b.from; to = b.to } };
}

impl Area {
    /// The rectangle with these corners. None comes exactly where `from` lies right of or below
    /// `to`.
    pub fn of(from: Address, to: Address) -> Option<Area>
        ensures corners { IfSome result (λ area. (area.from ≡ from) × (area.to ≡ to)) }
        ensures refused { IsNone result ↔ ((to.column < from.column) ⊎ (to.row < from.row)) }
    {
        if from.column > to.column || from.row > to.row {
            return None;
        }
        Some(Area { from, to })
    }

    /// Whether the cell lies in the rectangle, whatever its marks.
    pub fn contains(&self, cell: &Address) -> bool
        ensures { result ≡ is_within self.now cell.now }
    {
        self.from.column <= cell.column
            && cell.column <= self.to.column
            && self.from.row <= cell.row
            && cell.row <= self.to.row
    }
}
