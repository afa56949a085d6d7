//! The listing of code, byte for byte.
use crate::plans::{
    EMPTY, INT, INT_INT, INT_INT_INT, INT_STR, Plan, STR, STR_INT, STR_STR, STR_STR_STR, called,
    code, parts, with_two_locals,
};
use ci_base::{PrivateName, Relation, SharedName};
use ci_code::Instruction;
use ci_listing::write_listing;
use ci_outside::{MemSink, NumberList};
use ci_verify::verify;
use std::alloc::Global;
use std::test::Fail;

/// The steps of a function that traces a text.
static TRACING: [(u32, Instruction); 7] = [
    (EMPTY, Instruction::Tick),
    (EMPTY, Instruction::Tick),
    (EMPTY, Instruction::PushStr(0)),
    (STR, Instruction::Ask(SharedName::Trace)),
    (INT, Instruction::Drop),
    (EMPTY, Instruction::PushInt(0)),
    (INT, Instruction::Return),
];

const TRACING_LISTING: &[u8] = b"\
function 0 Main locals 0 room 1
0 Tick
1 Tick
2 PushStr \"hi\"
3 Ask Trace
4 Drop
5 PushInt 0
6 Return
";

/// Each instruction, with each form of an operand.
static EACH: [(u32, Instruction); 79] = [
    (EMPTY, Instruction::Tick),
    (EMPTY, Instruction::PushInt(-5)),
    (INT, Instruction::Store(0)),
    (EMPTY, Instruction::PushStr(1)),
    (STR, Instruction::Store(1)),
    (EMPTY, Instruction::Load(0)),
    (INT, Instruction::Neg),
    (INT, Instruction::Not),
    (INT, Instruction::PushInt(2147483647)),
    (INT_INT, Instruction::Add),
    (INT, Instruction::PushInt(-2147483648)),
    (INT_INT, Instruction::Sub),
    (INT, Instruction::PushInt(0)),
    (INT_INT, Instruction::Mul),
    (INT, Instruction::PushInt(7)),
    (INT_INT, Instruction::Div),
    (INT, Instruction::PushInt(10)),
    (INT_INT, Instruction::Mod),
    (INT, Instruction::Dup),
    (INT_INT, Instruction::And),
    (INT, Instruction::Dup),
    (INT_INT, Instruction::Or),
    (INT, Instruction::Dup),
    (INT_INT, Instruction::BitAnd),
    (INT, Instruction::Dup),
    (INT_INT, Instruction::BitOr),
    (INT, Instruction::Dup),
    (INT_INT, Instruction::BitXor),
    (INT, Instruction::Dup),
    (INT_INT, Instruction::CmpInt(Relation::Equal)),
    (INT, Instruction::Dup),
    (INT_INT, Instruction::CmpInt(Relation::Unequal)),
    (INT, Instruction::Dup),
    (INT_INT, Instruction::CmpInt(Relation::Less)),
    (INT, Instruction::Dup),
    (INT_INT, Instruction::CmpInt(Relation::Greater)),
    (INT, Instruction::Dup),
    (INT_INT, Instruction::CmpInt(Relation::AtMost)),
    (INT, Instruction::Dup),
    (INT_INT, Instruction::CmpInt(Relation::AtLeast)),
    (INT, Instruction::Dup),
    (INT_INT, Instruction::Dup),
    (INT_INT_INT, Instruction::WithinInt),
    (INT, Instruction::ReadAt(0)),
    (INT, Instruction::Form(255)),
    (STR, Instruction::Load(1)),
    (STR_STR, Instruction::Cat),
    (STR, Instruction::Dup),
    (STR_STR, Instruction::CmpStr(Relation::AtLeast)),
    (INT, Instruction::WriteCell(0)),
    (EMPTY, Instruction::PushStr(0)),
    (STR, Instruction::Dup),
    (STR_STR, Instruction::Dup),
    (STR_STR_STR, Instruction::WithinStr),
    (INT, Instruction::Drop),
    (EMPTY, Instruction::ReadCell(1)),
    (STR, Instruction::WriteCell(1)),
    (EMPTY, Instruction::PushInt(0)),
    (INT, Instruction::PushInt(3)),
    (INT_INT, Instruction::WriteAt(0)),
    (EMPTY, Instruction::PushInt(1)),
    (INT, Instruction::PushStr(0)),
    (INT_STR, Instruction::Swap),
    (STR_INT, Instruction::Drop),
    (STR, Instruction::Drop),
    (EMPTY, Instruction::PushInt(0)),
    (INT, Instruction::JumpIfZero(67)),
    (EMPTY, Instruction::Jump(68)),
    (EMPTY, Instruction::PushInt(1)),
    (INT, Instruction::Call(1)),
    (STR, Instruction::Private(PrivateName::StrUpper)),
    (STR, Instruction::Ask(SharedName::Enter)),
    (INT, Instruction::Drop),
    (EMPTY, Instruction::TakeSort),
    (INT, Instruction::Drop),
    (EMPTY, Instruction::TakeText),
    (STR, Instruction::Drop),
    (EMPTY, Instruction::Ask(SharedName::End)),
    (INT, Instruction::Return),
];

const EACH_LISTING: &[u8] = b"\
function 0 Main locals 2 room 6
0 Tick
1 PushInt -5
2 Store 0
3 PushStr \"a^\"b^^c^n^r^t^0x00^0x1f ~^0x7f^0xff\"
4 Store 1
5 Load 0
6 Neg
7 Not
8 PushInt 2147483647
9 Add
10 PushInt -2147483648
11 Sub
12 PushInt 0
13 Mul
14 PushInt 7
15 Div
16 PushInt 10
17 Mod
18 Dup
19 And
20 Dup
21 Or
22 Dup
23 BitAnd
24 Dup
25 BitOr
26 Dup
27 BitXor
28 Dup
29 CmpInt =
30 Dup
31 CmpInt <>
32 Dup
33 CmpInt <
34 Dup
35 CmpInt >
36 Dup
37 CmpInt <=
38 Dup
39 CmpInt >=
40 Dup
41 Dup
42 WithinInt
43 ReadAt 0
44 Form 255
45 Load 1
46 Cat
47 Dup
48 CmpStr >=
49 WriteCell 0
50 PushStr \"hi\"
51 Dup
52 Dup
53 WithinStr
54 Drop
55 ReadCell 1
56 WriteCell 1
57 PushInt 0
58 PushInt 3
59 WriteAt 0
60 PushInt 1
61 PushStr \"hi\"
62 Swap
63 Drop
64 Drop
65 PushInt 0
66 JumpIfZero 67
67 Jump 68
68 PushInt 1
69 Call 1
70 Private StrUpper
71 Ask Enter
72 Drop
73 TakeSort
74 Drop
75 TakeText
76 Drop
77 Ask End
78 Return
function 1 Main locals 1 room 2
0 Tick
1 PushStr \"hi\"
2 Return
";

/// The listing of the code of these functions, as a sink has it that takes at most so many bytes at once.
fn listed(alloc: Global, plans: &[Plan], most: usize) -> Result<MemSink, Fail> {
    if most == 0 {
        return Err(Fail::from("a sink that takes nothing"));
    }
    let mut out = MemSink::of(alloc, most, NumberList::empty(alloc));
    match verify(code(parts(alloc, plans)?)?) {
        Ok(verified) => match write_listing(&verified, &mut out) {
            Ok(()) => Ok(out),
            Err(_) => Err(Fail::from("a put failed")),
        },
        Err(_) => Err(Fail::from("a rule is broken")),
    }
}

#[test]
fn a_listing_is_put_whole(rt: HostRuntime) -> Result<(), Fail> {
    let tracing = Plan {
        takes: &[],
        others: &[],
        gives: None,
        room: 1,
        steps: &TRACING,
    };
    for most in [1, 4096] {
        let short = listed(rt.alloc(), &[tracing], most)?;
        assert_eq!(rt; short.bytes(), TRACING_LISTING);
        let each = listed(rt.alloc(), &[with_two_locals(6, &EACH), called()], most)?;
        assert_eq!(rt; each.bytes(), EACH_LISTING);
    }
    Ok(())
}
