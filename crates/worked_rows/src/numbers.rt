//! Numbers with nine decimals, where the program does not make the call or meet the answer.

use arrayvec::ArrayString;
use quantities::{Amount, DecimalFault, read_decimal};

/// Texts, and the billionths that they say.
static READ: [(&str, Result<i128, DecimalFault>); 9] = [
    ("+7", Ok(7_000_000_000)),
    ("-0", Ok(0)),
    ("-0.1234567895", Ok(-123_456_790)),
    ("-1e19", Ok(-10_000_000_000_000_000_000_000_000_000)),
    ("-10000000000000000000.000000001", Err(DecimalFault::Range)),
    ("", Err(DecimalFault::NotDecimal)),
    (".5", Err(DecimalFault::NotDecimal)),
    ("1e100", Err(DecimalFault::NotDecimal)),
    ("--1", Err(DecimalFault::NotDecimal)),
];

fn billionths(text: &str) -> Result<i128, DecimalFault> {
    Ok(read_decimal(text.as_bytes())?.raw())
}

#[test]
fn decimals_are_read(rt: HostRuntime) {
    for (text, want) in READ.iter() {
        assert!(rt; billionths(text) == *want, "{text}");
    }
}

/// Billionths, and their text with nine decimals.
static WRITTEN: [(i128, &str); 3] = [
    (0, "0.000000000"),
    (-500_000_000, "-0.500000000"),
    (
        -9_999_999_999_999_999_999_999_999_999,
        "-9999999999999999999.999999999",
    ),
];

fn is_written_as(raw: i128, nine: &str) -> bool {
    let Ok(amount) = Amount::of_raw(raw) else {
        return false;
    };
    let mut text = ArrayString::new();
    amount.write_nine(&mut text);
    text.as_str() == nine && Amount::read_nine(nine.as_bytes()) == Some(amount)
}

#[test]
fn amounts_are_written(rt: HostRuntime) {
    for (raw, nine) in WRITTEN.iter() {
        assert!(rt; is_written_as(*raw, nine));
    }
    assert!(rt; Amount::of_raw(10_000_000_000_000_000_000_000_000_001).is_err());
}
