//! The private functions: their values at ordinary arguments and at the edges.
use super::given::Want::{Fault, Int, Str};
use super::given::{Want, compare, string, text};
use ci_base::PrivateName::{
    Abs, Assert, CharToStr, ErrSet, IntToStr, IsError, Max, Min, StrFill, StrGetChar, StrLeft,
    StrLength, StrLower, StrMid, StrRight, StrSearch, StrToInt, StrTrim, StrUpper,
};
use ci_base::{PrivateName, Value};
use ci_builtin::private_value;
use std::process::Abort;
use std::test::Fail;

const OF_A_TEXT: &[(PrivateName, &str, Want)] = &[
    (StrLength, "", Int(0)),
    (StrLength, "abc", Int(3)),
    (StrUpper, "`azAZ{1", Str("`AZAZ{1")),
    (StrLower, "@AZaz[1", Str("@azaz[1")),
    (StrUpper, "", Str("")),
    (StrTrim, " \t a\t b\t ", Str("a\t b")),
    (StrTrim, "\na\n", Str("\na\n")),
    (StrTrim, " \t ", Str("")),
    (StrTrim, "", Str("")),
    (StrToInt, " -12 ", Int(-12)),
    (StrToInt, "+7", Int(7)),
    (StrToInt, "-0", Int(0)),
    (StrToInt, "000000000000000000000012", Int(12)),
    (StrToInt, "2147483647", Int(2147483647)),
    (StrToInt, "2147483648", Fault(13)),
    (StrToInt, "-2147483648", Int(-2147483648)),
    (StrToInt, "-2147483649", Fault(13)),
    (StrToInt, "99999999999999999999", Fault(13)),
    (StrToInt, "", Fault(13)),
    (StrToInt, "  ", Fault(13)),
    (StrToInt, "-", Fault(13)),
    (StrToInt, "+-1", Fault(13)),
    (StrToInt, "- 1", Fault(13)),
    (StrToInt, "1 2", Fault(13)),
    (StrToInt, "\t1", Fault(13)),
    (StrToInt, "0x10", Fault(13)),
    (IntToStr, "1", Fault(10)),
    (StrLeft, "abc", Fault(10)),
];

const OF_AN_INT: &[(PrivateName, i32, Want)] = &[
    (IntToStr, 0, Str("0")),
    (IntToStr, 2147483647, Str("2147483647")),
    (IntToStr, -2147483648, Str("-2147483648")),
    (CharToStr, 65, Str("A")),
    (CharToStr, 321, Str("A")),
    (CharToStr, -191, Str("A")),
    (Abs, -5, Int(5)),
    (Abs, 5, Int(5)),
    (Abs, -2147483648, Int(-2147483648)),
    (Assert, 0, Fault(14)),
    (Assert, 1, Int(0)),
    (Assert, -1, Int(0)),
    (ErrSet, 0, Int(0)),
    (ErrSet, 1, Int(0)),
    (StrLength, 1, Fault(10)),
];

const OF_TWO_INTS: &[(PrivateName, i32, i32, Want)] = &[
    (Max, 3, -4, Int(3)),
    (Max, -2147483648, 2147483647, Int(2147483647)),
    (Min, 3, -4, Int(-4)),
    (Min, 2147483647, -2147483648, Int(-2147483648)),
    (Abs, 1, 1, Fault(10)),
];

const OF_A_TEXT_AND_AN_INT: &[(PrivateName, &str, i32, Want)] = &[
    (StrLeft, "abc", 2, Str("ab")),
    (StrLeft, "abc", 9, Str("abc")),
    (StrLeft, "abc", 0, Str("")),
    (StrLeft, "abc", -1, Str("")),
    (StrRight, "abc", 2, Str("bc")),
    (StrRight, "abc", 9, Str("abc")),
    (StrRight, "abc", 0, Str("")),
    (StrRight, "abc", -2147483648, Str("")),
    (StrFill, "ab", 5, Str("ababa")),
    (StrFill, "ab", 1, Str("a")),
    (StrFill, "ab", 0, Str("")),
    (StrFill, "ab", -1, Str("")),
    (StrFill, "", 300, Str("")),
    (StrFill, "ab", 256, Fault(9)),
    (StrFill, "ab", 2147483647, Fault(9)),
    (StrGetChar, "abc", 0, Int(97)),
    (StrGetChar, "abc", 2, Int(99)),
    (StrGetChar, "abc", 3, Int(0)),
    (StrGetChar, "abc", -1, Int(0)),
    (StrMid, "abc", 1, Fault(10)),
];

const PARTS_OF_ABC: &[(i32, i32, &str)] = &[
    (1, 9, "bc"),
    (0, 2, "ab"),
    (1, 1, "b"),
    (3, 1, ""),
    (2147483647, 2147483647, ""),
    (-1, 2, ""),
    (0, -1, ""),
    (0, 0, ""),
];

const SEARCHES: &[(i32, &str, &str, i32)] = &[
    (0, "abcabc", "c", 2),
    (3, "abcabc", "c", 5),
    (0, "ababac", "abac", 2),
    (1, "aaa", "aa", 1),
    (2, "aaa", "aa", -1),
    (1, "abc", "a", -1),
    (3, "abc", "", 3),
    (4, "abc", "", -1),
    (0, "", "", 0),
    (-1, "abc", "", -1),
    (0, "abc", "abcd", -1),
    (2147483647, "abc", "a", -1),
];

/// A private function of a text.
fn of_text(rt: &impl Abort, name: PrivateName, s: &str, want: Want) -> Result<(), Fail> {
    let given = [string(s)?];
    compare(rt, private_value(0, name, &given), want)
}

/// A private function of a text and an INT.
fn of_text_and_int(
    rt: &impl Abort,
    name: PrivateName,
    s: &str,
    n: i32,
    want: Want,
) -> Result<(), Fail> {
    let given = [string(s)?, Value::Int(n)];
    compare(rt, private_value(0, name, &given), want)
}

/// The m bytes of abc from n on.
fn part_of_abc(rt: &impl Abort, n: i32, m: i32, want: &'static str) -> Result<(), Fail> {
    let given = [string("abc")?, Value::Int(n), Value::Int(m)];
    compare(rt, private_value(0, StrMid, &given), Str(want))
}

/// Where p stands in s, from n on.
fn searched(rt: &impl Abort, n: i32, s: &str, p: &str, want: i32) -> Result<(), Fail> {
    let given = [Value::Int(n), string(s)?, string(p)?];
    compare(rt, private_value(0, StrSearch, &given), Int(want))
}

#[test]
fn of_a_text(rt: HostRuntime) -> Result<(), Fail> {
    for (name, s, want) in OF_A_TEXT {
        of_text(&rt, *name, s, *want)?;
    }
    Ok(())
}

#[test]
fn of_one_int_or_two(rt: HostRuntime) -> Result<(), Fail> {
    for (name, n, want) in OF_AN_INT {
        compare(&rt, private_value(0, *name, &[Value::Int(*n)]), *want)?;
    }
    for (name, a, b, want) in OF_TWO_INTS {
        let given = [Value::Int(*a), Value::Int(*b)];
        compare(&rt, private_value(0, *name, &given), *want)?;
    }
    compare(&rt, private_value(9, IsError, &[]), Int(9))?;
    compare(&rt, private_value(9, StrLength, &[]), Fault(10))?;
    let minus_one = private_value(0, CharToStr, &[Value::Int(-1)]);
    let last_byte = private_value(0, CharToStr, &[Value::Int(255)]);
    assert_eq!(rt; minus_one, last_byte);
    Ok(())
}

#[test]
fn of_a_text_and_ints(rt: HostRuntime) -> Result<(), Fail> {
    for (name, s, n, want) in OF_A_TEXT_AND_AN_INT {
        of_text_and_int(&rt, *name, s, *n, *want)?;
    }
    for (n, m, want) in PARTS_OF_ABC {
        part_of_abc(&rt, *n, *m, want)?;
    }
    Ok(())
}

#[test]
fn of_an_int_and_two_texts(rt: HostRuntime) -> Result<(), Fail> {
    for (n, s, p, want) in SEARCHES {
        searched(&rt, *n, s, p, *want)?;
    }
    Ok(())
}

#[test]
fn at_255_bytes(rt: HostRuntime) -> Result<(), Fail> {
    let long = private_value(0, StrFill, &[string("xy")?, Value::Int(255)]).or(Err("no text"))?;
    let tail = private_value(0, StrMid, &[long.copy(), Value::Int(253), Value::Int(9)]);
    compare(&rt, tail, Str("yx"))?;
    let found = private_value(0, StrSearch, &[Value::Int(0), long.copy(), string("xyy")?]);
    compare(&rt, found, Int(-1))?;
    let last = private_value(0, StrGetChar, &[long.copy(), Value::Int(254)]);
    compare(&rt, last, Int(120))?;
    compare(&rt, private_value(0, StrLength, &[long.copy()]), Int(255))?;
    assert_eq!(rt; private_value(0, StrTrim, &[long.copy()]), Ok(long));
    assert_eq!(rt; text("")?.bytes().len(), 0);
    Ok(())
}
