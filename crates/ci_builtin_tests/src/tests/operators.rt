//! The operators.
use super::given::Want::{Fault, Int, Str};
use super::given::{Want, compare, string, text};
use ci_base::{Relation, Text, Value};
use ci_builtin::{
    common_bits, conjunction, difference, differing_bits, disjunction, formatted, holds, inversion,
    joined, joint_bits, negation, product, quotient, remainder, same, str_fill, sum, within,
};
use std::process::Abort;
use std::test::Fail;

/// Two INTs, their quotient, and what is left.
const DIVISIONS: &[(i32, i32, Want, Want)] = &[
    (7, 2, Int(3), Int(1)),
    (-7, 2, Int(-3), Int(-1)),
    (7, -2, Int(-3), Int(1)),
    (-7, -2, Int(3), Int(-1)),
    (-2147483648, -1, Int(-2147483648), Int(0)),
    (0, 5, Int(0), Int(0)),
    (1, 0, Fault(8), Fault(8)),
];

/// Two INTs, and their `AND`, `OR`, `BITAND`, `BITOR` and `BITXOR`.
const BITS: &[(i32, i32, [i32; 5])] = &[
    (2, 4, [1, 1, 0, 6, 6]),
    (6, 3, [1, 1, 2, 7, 5]),
    (-1, 5, [1, 1, 5, -1, -6]),
    (0, -2, [0, 1, 0, -2, -2]),
    (0, 0, [0, 0, 0, 0, 0]),
];

/// Two INTs, whether the first is less, and whether they are equal.
const INTS: &[(i32, i32, bool, bool)] = &[
    (-1, 0, true, false),
    (0, 0, false, true),
    (2147483647, -2147483648, false, false),
];

/// The same of two texts.
const TEXTS: &[(&str, &str, bool, bool)] = &[
    ("", "a", true, false),
    ("a", "ab", true, false),
    ("ab", "b", true, false),
    ("Z", "a", true, false),
    ("ab", "ab", false, true),
    ("ab", "a", false, false),
];

/// A number, its hashes, and its text.
const FORMATS: &[(i32, u32, Want)] = &[
    (7, 3, Str("  7")),
    (7, 1, Str("7")),
    (-12, 2, Str("-12")),
    (-12, 5, Str("  -12")),
    (-2147483648, 12, Str(" -2147483648")),
    (0, 256, Fault(9)),
];

#[test]
fn arithmetic_wraps(rt: HostRuntime) -> Result<(), Fail> {
    assert_eq!(rt; sum(2147483647, 1), -2147483648);
    assert_eq!(rt; sum(2, -5), -3);
    assert_eq!(rt; difference(-2147483648, 1), 2147483647);
    assert_eq!(rt; difference(2, -5), 7);
    assert_eq!(rt; product(65536, 65536), 0);
    assert_eq!(rt; product(-3, 5), -15);
    assert_eq!(rt; negation(-2147483648), -2147483648);
    assert_eq!(rt; negation(5), -5);
    for (a, b, divided, left) in DIVISIONS {
        compare(&rt, quotient(*a, *b), *divided)?;
        compare(&rt, remainder(*a, *b), *left)?;
    }
    Ok(())
}

/// What the operators on conditions and bits give.
fn bits(rt: &impl Abort, a: i32, b: i32, want: [i32; 5]) {
    let got = [
        conjunction(a, b),
        disjunction(a, b),
        common_bits(a, b),
        joint_bits(a, b),
        differing_bits(a, b),
    ];
    assert_eq!(rt; got, want);
}

#[test]
fn conditions_and_bits(rt: HostRuntime) -> Result<(), Fail> {
    for (a, b, want) in BITS {
        bits(&rt, *a, *b, *want);
    }
    assert_eq!(rt; inversion(0), 1);
    assert_eq!(rt; inversion(-7), 0);
    Ok(())
}

/// The six relations of two values.
fn compared(rt: &impl Abort, a: &Value, b: &Value, less: bool, equal: bool) {
    let got = [
        holds(Relation::Less, a, b),
        holds(Relation::AtMost, a, b),
        holds(Relation::Equal, a, b),
        holds(Relation::Unequal, a, b),
        holds(Relation::Greater, a, b),
        holds(Relation::AtLeast, a, b),
    ];
    let greater = !less && !equal;
    assert_eq!(rt; got, [less, !greater, equal, !equal, greater, !less]);
    assert_eq!(rt; same(a, b), equal);
}

/// The same of two texts.
fn compared_texts(rt: &impl Abort, a: &str, b: &str, less: bool, equal: bool) -> Result<(), Fail> {
    compared(rt, &string(a)?, &string(b)?, less, equal);
    Ok(())
}

#[test]
fn comparisons(rt: HostRuntime) -> Result<(), Fail> {
    for (a, b, less, equal) in INTS {
        compared(&rt, &Value::Int(*a), &Value::Int(*b), *less, *equal);
    }
    for (a, b, less, equal) in TEXTS {
        compared_texts(&rt, a, b, *less, *equal)?;
    }
    Ok(())
}

#[test]
fn ranges(rt: HostRuntime) -> Result<(), Fail> {
    for (n, inside) in [(0, false), (1, true), (2, true), (3, true), (4, false)] {
        assert_eq!(rt;
            within(&Value::Int(n), &Value::Int(1), &Value::Int(3)),
            inside
        );
    }
    assert!(rt; within(&string("b")?, &string("a")?, &string("b")?));
    assert!(rt; !within(&string("bb")?, &string("a")?, &string("b")?));
    assert!(rt; !same(&Value::Int(1), &string("1")?));
    Ok(())
}

/// A text of so many x.
fn xs(count: i32) -> Result<Text, Fail> {
    match str_fill(&text("x")?, count) {
        Ok(Value::Str(s)) => Ok(s),
        _ => Err(Fail::from("no text")),
    }
}

#[test]
fn texts_are_joined_and_formatted(rt: HostRuntime) -> Result<(), Fail> {
    compare(&rt, joined(&text("ab")?, &text("c")?), Str("abc"))?;
    compare(&rt, joined(&text("")?, &text("")?), Str(""))?;
    let most = xs(255)?;
    compare(&rt, joined(&most, &text("y")?), Fault(9))?;
    assert_eq!(rt; joined(&xs(254)?, &text("x")?), Ok(Value::Str(most)));
    for (n, hashes, want) in FORMATS {
        compare(&rt, formatted(*n, *hashes), *want)?;
    }
    assert!(rt; formatted(0, 255).is_ok());
    Ok(())
}
