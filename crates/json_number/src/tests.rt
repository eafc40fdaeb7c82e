//! Pairs of texts.

ghost use Rattle.std.specs.Prelude.{◌↔◌, IsTrue};
ghost use Rattle.json_number.specs.Numbers.{SameNumber};

use crate::{laws, same_number};

/// Whether a setting has the number that it had, however it is written now.
fn is_unchanged(old: &str, new: &str) -> bool
    ensures { IsTrue result ↔ SameNumber old.now new.now }
{
    laws::same_numbers();
    same_number(new, old)
}

fn example() -> bool {
    let same = same_number("1.5", "15e-1");
    same && !same_number("0.1", "0.10000000000000001")
}

#[test]
fn alike(rt: HostRuntime) {
    for (a, b) in [
        ("1.5", "1.50"),
        ("1.0", "1"),
        ("1e2", "100"),
        ("-0", "0"),
        ("-0.0e7", "0e99999999999999999999999999"),
        ("0.001e+403", "1E400"),
        ("-1.25", "-125.000e-02"),
        (
            "1e100000000000000000000000000000",
            "10e99999999999999999999999999999",
        ),
        (
            "1e-99999999999999999999999999999",
            "10e-100000000000000000000000000000",
        ),
    ] {
        assert!(rt; same_number(a, b), "{a} {b}");
    }
    assert!(rt; example() && is_unchanged("2", "2.0"));
}

#[test]
fn apart(rt: HostRuntime) {
    for (a, b) in [
        ("1.5", "1.51"),
        ("1", "-1"),
        ("10", "1"),
        ("1e400", "1e401"),
        ("1e400", "1e-400"),
        ("0", "1e-99999999999999999999999999999"),
        (
            "1e100000000000000000000000000000",
            "1e99999999999999999999999999999",
        ),
        ("9007199254740993", "9007199254740992"),
    ] {
        assert!(rt; !same_number(a, b), "{a} {b}");
    }
}
