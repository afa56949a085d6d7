//! The operators, each done once.
use crate::instructions::Row;
use crate::plans::{I, II, III, NONE, S, SS, SSS};
use ci_base::{Kind, Relation};
use ci_code::Instruction;

// The first of these instructions stands at place 1.
pub static OPERATORS: [Row; 35] = [
    (
        &[(NONE, Instruction::PushInt(5)), (I, Instruction::Neg)],
        Kind::Int,
        "trace \"-5\"; end 0",
    ),
    (
        &[
            (NONE, Instruction::PushInt(-2147483648)),
            (I, Instruction::Neg),
        ],
        Kind::Int,
        "trace \"-2147483648\"; end 0",
    ),
    (
        &[(NONE, Instruction::PushInt(0)), (I, Instruction::Not)],
        Kind::Int,
        "trace \"1\"; end 0",
    ),
    (
        &[(NONE, Instruction::PushInt(3)), (I, Instruction::Not)],
        Kind::Int,
        "trace \"0\"; end 0",
    ),
    (
        &[
            (NONE, Instruction::PushInt(2147483647)),
            (I, Instruction::PushInt(1)),
            (II, Instruction::Add),
        ],
        Kind::Int,
        "trace \"-2147483648\"; end 0",
    ),
    (
        &[
            (NONE, Instruction::PushInt(3)),
            (I, Instruction::PushInt(5)),
            (II, Instruction::Sub),
        ],
        Kind::Int,
        "trace \"-2\"; end 0",
    ),
    (
        &[
            (NONE, Instruction::PushInt(65537)),
            (I, Instruction::PushInt(65537)),
            (II, Instruction::Mul),
        ],
        Kind::Int,
        "trace \"131073\"; end 0",
    ),
    (
        &[
            (NONE, Instruction::PushInt(-7)),
            (I, Instruction::PushInt(2)),
            (II, Instruction::Div),
        ],
        Kind::Int,
        "trace \"-3\"; end 0",
    ),
    (
        &[
            (NONE, Instruction::PushInt(-7)),
            (I, Instruction::PushInt(2)),
            (II, Instruction::Mod),
        ],
        Kind::Int,
        "trace \"-1\"; end 0",
    ),
    (
        &[
            (NONE, Instruction::PushInt(2)),
            (I, Instruction::PushInt(4)),
            (II, Instruction::And),
        ],
        Kind::Int,
        "trace \"1\"; end 0",
    ),
    (
        &[
            (NONE, Instruction::PushInt(2)),
            (I, Instruction::PushInt(0)),
            (II, Instruction::And),
        ],
        Kind::Int,
        "trace \"0\"; end 0",
    ),
    (
        &[
            (NONE, Instruction::PushInt(2)),
            (I, Instruction::PushInt(0)),
            (II, Instruction::Or),
        ],
        Kind::Int,
        "trace \"1\"; end 0",
    ),
    (
        &[
            (NONE, Instruction::PushInt(0)),
            (I, Instruction::PushInt(0)),
            (II, Instruction::Or),
        ],
        Kind::Int,
        "trace \"0\"; end 0",
    ),
    (
        &[
            (NONE, Instruction::PushInt(12)),
            (I, Instruction::PushInt(10)),
            (II, Instruction::BitAnd),
        ],
        Kind::Int,
        "trace \"8\"; end 0",
    ),
    (
        &[
            (NONE, Instruction::PushInt(12)),
            (I, Instruction::PushInt(10)),
            (II, Instruction::BitOr),
        ],
        Kind::Int,
        "trace \"14\"; end 0",
    ),
    (
        &[
            (NONE, Instruction::PushInt(12)),
            (I, Instruction::PushInt(10)),
            (II, Instruction::BitXor),
        ],
        Kind::Int,
        "trace \"6\"; end 0",
    ),
    (
        &[
            (NONE, Instruction::PushStr(0)),
            (S, Instruction::PushStr(1)),
            (SS, Instruction::Cat),
        ],
        Kind::Str,
        "trace \"hix\"; end 0",
    ),
    (
        &[
            (NONE, Instruction::PushInt(1)),
            (I, Instruction::PushInt(2)),
            (II, Instruction::CmpInt(Relation::Less)),
        ],
        Kind::Int,
        "trace \"1\"; end 0",
    ),
    (
        &[
            (NONE, Instruction::PushInt(2)),
            (I, Instruction::PushInt(2)),
            (II, Instruction::CmpInt(Relation::Equal)),
        ],
        Kind::Int,
        "trace \"1\"; end 0",
    ),
    (
        &[
            (NONE, Instruction::PushInt(2)),
            (I, Instruction::PushInt(2)),
            (II, Instruction::CmpInt(Relation::AtMost)),
        ],
        Kind::Int,
        "trace \"1\"; end 0",
    ),
    (
        &[
            (NONE, Instruction::PushInt(1)),
            (I, Instruction::PushInt(2)),
            (II, Instruction::CmpInt(Relation::Greater)),
        ],
        Kind::Int,
        "trace \"0\"; end 0",
    ),
    (
        &[
            (NONE, Instruction::PushInt(3)),
            (I, Instruction::PushInt(3)),
            (II, Instruction::CmpInt(Relation::Unequal)),
        ],
        Kind::Int,
        "trace \"0\"; end 0",
    ),
    (
        &[
            (NONE, Instruction::PushInt(1)),
            (I, Instruction::PushInt(2)),
            (II, Instruction::CmpInt(Relation::AtLeast)),
        ],
        Kind::Int,
        "trace \"0\"; end 0",
    ),
    (
        &[
            (NONE, Instruction::PushStr(0)),
            (S, Instruction::PushStr(1)),
            (SS, Instruction::CmpStr(Relation::Less)),
        ],
        Kind::Int,
        "trace \"1\"; end 0",
    ),
    (
        &[
            (NONE, Instruction::PushStr(0)),
            (S, Instruction::PushStr(1)),
            (SS, Instruction::CmpStr(Relation::Equal)),
        ],
        Kind::Int,
        "trace \"0\"; end 0",
    ),
    (
        &[
            (NONE, Instruction::PushStr(0)),
            (S, Instruction::PushStr(1)),
            (SS, Instruction::CmpStr(Relation::AtMost)),
        ],
        Kind::Int,
        "trace \"1\"; end 0",
    ),
    (
        &[
            (NONE, Instruction::PushStr(0)),
            (S, Instruction::PushStr(1)),
            (SS, Instruction::CmpStr(Relation::Greater)),
        ],
        Kind::Int,
        "trace \"0\"; end 0",
    ),
    (
        &[
            (NONE, Instruction::PushStr(0)),
            (S, Instruction::PushStr(1)),
            (SS, Instruction::CmpStr(Relation::Unequal)),
        ],
        Kind::Int,
        "trace \"1\"; end 0",
    ),
    (
        &[
            (NONE, Instruction::PushStr(0)),
            (S, Instruction::PushStr(1)),
            (SS, Instruction::CmpStr(Relation::AtLeast)),
        ],
        Kind::Int,
        "trace \"0\"; end 0",
    ),
    (
        &[
            (NONE, Instruction::PushInt(5)),
            (I, Instruction::PushInt(1)),
            (II, Instruction::PushInt(5)),
            (III, Instruction::WithinInt),
        ],
        Kind::Int,
        "trace \"1\"; end 0",
    ),
    (
        &[
            (NONE, Instruction::PushInt(0)),
            (I, Instruction::PushInt(1)),
            (II, Instruction::PushInt(5)),
            (III, Instruction::WithinInt),
        ],
        Kind::Int,
        "trace \"0\"; end 0",
    ),
    (
        &[
            (NONE, Instruction::PushStr(0)),
            (S, Instruction::PushStr(0)),
            (SS, Instruction::PushStr(1)),
            (SSS, Instruction::WithinStr),
        ],
        Kind::Int,
        "trace \"1\"; end 0",
    ),
    (
        &[
            (NONE, Instruction::PushStr(1)),
            (S, Instruction::PushStr(0)),
            (SS, Instruction::PushStr(0)),
            (SSS, Instruction::WithinStr),
        ],
        Kind::Int,
        "trace \"0\"; end 0",
    ),
    (
        &[(NONE, Instruction::PushInt(5)), (I, Instruction::Form(3))],
        Kind::Str,
        "trace \"  5\"; end 0",
    ),
    (
        &[
            (NONE, Instruction::PushInt(-1234)),
            (I, Instruction::Form(3)),
        ],
        Kind::Str,
        "trace \"-1234\"; end 0",
    ),
];
