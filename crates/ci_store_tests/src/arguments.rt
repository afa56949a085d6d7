//! Lists of arguments.
use crate::play::{Row, follow};
use crate::steps::{Ask, Step, Tell};
use std::test::Fail;

static LISTS: [Row; 32] = [
    (
        Step::Script(Tell::Run("F", "7")),
        "1 0; starts 1: 0(7, \"d\")",
    ),
    (Step::Script(Tell::Run("F", "7,8")), "-1 10"),
    (
        Step::Script(Tell::Run("F", " 0x10 , \"\" ")),
        "2 0; starts 2: 0(16, \"\")",
    ),
    (
        Step::Script(Tell::Run("f", "-5 ,\"a^\"b^0x41^^\"")),
        "3 0; starts 3: 0(-5, \"a\"bA^\")",
    ),
    (Step::Script(Tell::Run("F", "")), "-1 10"),
    (Step::Script(Tell::Run("F", "1,\"x\",2")), "-1 10"),
    (Step::Script(Tell::Run("F", "\"x\"")), "-1 10"),
    // Of two PUBLIC functions of one name the one with the lesser number counts.
    (Step::Script(Tell::Run("Main", "")), "4 0; starts 4: 1()"),
    (Step::Script(Tell::Run("MAIN", "   ")), "5 0; starts 5: 1()"),
    (Step::Script(Tell::Run("main", "1")), "-1 10"),
    (
        Step::Script(Tell::Run("Two", "1,2")),
        "6 0; starts 6: 2(1, 2)",
    ),
    (Step::Script(Tell::Run("Two", "1")), "-1 10"),
    (Step::Script(Tell::Run("Two", "1,2,3")), "-1 10"),
    (
        Step::Script(Tell::Run("Two", "  1  ,  2  ")),
        "7 0; starts 7: 2(1, 2)",
    ),
    (Step::Script(Tell::Run("Two", "1,\t2")), "-1 10"),
    (
        Step::Script(Tell::Run("Two", "2147483647,-2147483648")),
        "8 0; starts 8: 2(2147483647, -2147483648)",
    ),
    (
        Step::Script(Tell::Run("Two", "0xffffffff,0x7FFFFFFF")),
        "9 0; starts 9: 2(-1, 2147483647)",
    ),
    (
        Step::Script(Tell::Run("Two", "-0,007")),
        "10 0; starts 10: 2(0, 7)",
    ),
    (
        Step::Script(Tell::Run("All", "")),
        "11 0; starts 11: 5(1, \"x\")",
    ),
    (
        Step::Script(Tell::Run("All", "2")),
        "12 0; starts 12: 5(2, \"x\")",
    ),
    (
        Step::Script(Tell::Run("All", "2,\"\"")),
        "13 0; starts 13: 5(2, \"\")",
    ),
    (Step::Script(Tell::Run("All", "\"y\"")), "-1 10"),
    (Step::Script(Tell::Run("All", ",\"y\"")), "-1 10"),
    (Step::Script(Tell::Run("Hidden", "")), "-1 5"),
    (Step::Script(Tell::Run("Nobody", "")), "-1 5"),
    (Step::Script(Tell::Run("Nobody", "1,")), "-1 5"),
    (Step::Script(Tell::Run("", "")), "-1 5"),
    (
        Step::By(1, Ask::TaskNew("F", "-1", 0)),
        "14 0; starts 14: 0(-1, \"d\")",
    ),
    (
        Step::By(1, Ask::TaskNew("Late", " ", -9)),
        "15 0; starts 15: 6()",
    ),
    (Step::By(1, Ask::TaskNew("F", "x", 0)), "-1 10"),
    (Step::By(1, Ask::TaskNew("G", "x", 0)), "-1 5"),
    (
        Step::Tasks,
        "1 ready, 2 ready, 3 ready, 4 ready, 5 ready, 6 ready, 7 ready, 8 ready, 9 ready, 10 ready, 11 ready, 12 ready, 13 ready, 14 ready, 15 ready, live 1 2 3 4 5 6 7 8 9 10 11 12 13 14 15",
    ),
];

#[test]
fn a_function_takes_its_arguments_from_a_list(rt: HostRuntime) -> Result<(), Fail> {
    follow(&rt, rt.alloc(), 0, &LISTS)
}

static NONE: [Row; 20] = [
    (Step::Misfits("2147483648"), "5"),
    (Step::Misfits("0x100000000"), "5"),
    (Step::Misfits("-0x1"), "5"),
    (Step::Misfits("1,"), "5"),
    (Step::Misfits(",1"), "5"),
    (Step::Misfits("\"a"), "5"),
    (Step::Misfits("1 2"), "5"),
    (Step::Misfits("\"a\"b"), "5"),
    (Step::Misfits("-2147483649"), "5"),
    (Step::Misfits("0X10"), "5"),
    (Step::Misfits("0x"), "5"),
    (Step::Misfits("+1"), "5"),
    (Step::Misfits("-"), "5"),
    (Step::Misfits(","), "5"),
    (Step::Misfits("1,,2"), "5"),
    (Step::Misfits("1;2"), "5"),
    (Step::Misfits("1.5"), "5"),
    (Step::Misfits("\"^x\""), "5"),
    (Step::Misfits("a"), "5"),
    (Step::Misfits("1,1,1,1,1,1,1,1,1,1,1,1,1,1,1,1,1"), "5"),
];

#[test]
fn what_is_no_list_fits_no_function(rt: HostRuntime) -> Result<(), Fail> {
    follow(&rt, rt.alloc(), 0, &NONE)
}
