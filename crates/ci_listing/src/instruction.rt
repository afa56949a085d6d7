//! An instruction in a listing.
ghost use Rattle.std.specs.Prelude.{◌≡◌, ◌+◌, ◌≤◌, ◌++◌, [], length, codes, decimal, slice_get, unwrap_or};
ghost use Rattle.std.specs.Fmt.{signed_decimal};
ghost use Rattle.ci_base.specs.declared.bounds.TheConstants.{MOST_LINE_BYTES};
ghost use Rattle.ci_listing.specs.Instructions.{relation_sign, request_name, instruction_name, quoted, operand};

use ci_base::{Line, Relation, SharedName, Text, put_caret, put_number, put_u32};
use ci_code::Instruction;

/// A relation, as the language spells it.
fn relation_sign(relation: Relation) -> &'static [u8]
    ensures value { result.now ≡ relation_sign relation }
    ensures short { length result.now ≤ 2 }
{
    match relation {
        Relation::Equal => b"=",
        Relation::Unequal => b"<>",
        Relation::Less => b"<",
        Relation::Greater => b">",
        Relation::AtMost => b"<=",
        Relation::AtLeast => b">=",
    }
}

/// The name of the request that a shared function makes.
fn request_name(name: SharedName) -> &'static [u8]
    ensures value { result.now ≡ request_name name }
    ensures short { length result.now ≤ 11 }
{
    match name {
        SharedName::TaskNew => b"TaskNew",
        SharedName::TaskKill => b"TaskKill",
        SharedName::TaskSuspend => b"TaskSuspend",
        SharedName::TaskResume => b"TaskResume",
        SharedName::TaskHnd => b"TaskHnd",
        SharedName::Sleep => b"Sleep",
        SharedName::SleepMS => b"SleepMS",
        SharedName::SemOpen => b"SemOpen",
        SharedName::SemWait => b"SemWait",
        SharedName::SemSignal => b"SemSignal",
        SharedName::SemClose => b"SemClose",
        SharedName::QueOpen => b"QueOpen",
        SharedName::QueWrite => b"QueWrite",
        SharedName::QueRead => b"QueRead",
        SharedName::QueLength => b"QueLength",
        SharedName::QueClose => b"QueClose",
        SharedName::Enter => b"Enter",
        SharedName::Leave => b"Leave",
        SharedName::Trace => b"Trace",
        SharedName::SysTime => b"SysTime",
        SharedName::End => b"End",
    }
}

/// The name of an instruction.
pub fn instruction_name(what: Instruction) -> &'static [u8]
    ensures value { result.now ≡ instruction_name what }
    ensures short { length result.now ≤ 10 }
{
    match what {
        Instruction::Tick => b"Tick",
        Instruction::PushInt(_) => b"PushInt",
        Instruction::PushStr(_) => b"PushStr",
        Instruction::Load(_) => b"Load",
        Instruction::Store(_) => b"Store",
        Instruction::ReadCell(_) => b"ReadCell",
        Instruction::WriteCell(_) => b"WriteCell",
        Instruction::ReadAt(_) => b"ReadAt",
        Instruction::WriteAt(_) => b"WriteAt",
        Instruction::Neg => b"Neg",
        Instruction::Not => b"Not",
        Instruction::Add => b"Add",
        Instruction::Sub => b"Sub",
        Instruction::Mul => b"Mul",
        Instruction::Div => b"Div",
        Instruction::Mod => b"Mod",
        Instruction::And => b"And",
        Instruction::Or => b"Or",
        Instruction::BitAnd => b"BitAnd",
        Instruction::BitOr => b"BitOr",
        Instruction::BitXor => b"BitXor",
        Instruction::Cat => b"Cat",
        Instruction::CmpInt(_) => b"CmpInt",
        Instruction::CmpStr(_) => b"CmpStr",
        Instruction::WithinInt => b"WithinInt",
        Instruction::WithinStr => b"WithinStr",
        Instruction::Form(_) => b"Form",
        Instruction::Dup => b"Dup",
        Instruction::Swap => b"Swap",
        Instruction::Drop => b"Drop",
        Instruction::Jump(_) => b"Jump",
        Instruction::JumpIfZero(_) => b"JumpIfZero",
        Instruction::Call(_) => b"Call",
        Instruction::Private(_) => b"Private",
        Instruction::Ask(_) => b"Ask",
        Instruction::TakeSort => b"TakeSort",
        Instruction::TakeText => b"TakeText",
        Instruction::Return => b"Return",
    }
}

/// Adds a space and a number.
fn add_number(n: u32, to: &mut Line)
    requires { length to.old + 11 ≤ MOST_LINE_BYTES }
    ensures value { to.new ≡ to.old ++ codes " " ++ decimal n }
    ensures short { length to.new ≤ length to.old + 11 }
{
    to.add(b" ");
    put_u32(n, to);
}

/// Adds a space and an INT.
fn add_int(n: i32, to: &mut Line)
    requires { length to.old + 12 ≤ MOST_LINE_BYTES }
    ensures value { to.new ≡ to.old ++ codes " " ++ signed_decimal n }
    ensures short { length to.new ≤ length to.old + 12 }
{
    to.add(b" ");
    put_number(i64::from(n), to);
}

/// Adds a space and a word.
fn add_word(word: &[u8], to: &mut Line)
    requires { length to.old + 1 + length word.now ≤ MOST_LINE_BYTES }
    ensures value { to.new ≡ to.old ++ codes " " ++ word.now }
    ensures short { length to.new ≤ length to.old + 1 + length word.now }
{
    to.add(b" ");
    to.add(word);
}

/// Adds a space and the text of that number between quotes.
fn add_text(texts: &[Text], number: u32, to: &mut Line)
    requires { length to.old + 1278 ≤ MOST_LINE_BYTES }
    ensures value { to.new ≡ to.old ++ codes " " ++ quoted texts.now number }
    ensures short { length to.new ≤ length to.old + 1278 }
{
    to.add(b" \"");
    put_caret(text_of(texts, number), to);
    to.add(b"\"");
}

/// The bytes of the text of that number.
fn text_of(texts: &[Text], number: u32) -> &[u8]
    ensures value { result.now ≡ unwrap_or (slice_get texts.now number) [] }
    ensures short { length result.now ≤ 255 }
{
    match texts.get(number as usize) {
        Some(text) => text.bytes(),
        None => b"",
    }
}

/// Adds the operand of an instruction behind a space.
pub fn add_operand(texts: &[Text], what: Instruction, to: &mut Line)
    requires { length to.old + 1278 ≤ MOST_LINE_BYTES }
    ensures value { to.new ≡ to.old ++ operand texts.now what }
    ensures short { length to.new ≤ length to.old + 1278 }
{
    match what {
        Instruction::PushInt(n) => add_int(n, to),
        Instruction::PushStr(text) => add_text(texts, text, to),
        Instruction::Load(n)
        | Instruction::Store(n)
        | Instruction::ReadCell(n)
        | Instruction::WriteCell(n)
        | Instruction::ReadAt(n)
        | Instruction::WriteAt(n)
        | Instruction::Form(n)
        | Instruction::Jump(n)
        | Instruction::JumpIfZero(n)
        | Instruction::Call(n) => add_number(n, to),
        Instruction::CmpInt(relation) | Instruction::CmpStr(relation) => {
            add_word(relation_sign(relation), to)
        }
        Instruction::Private(name) => add_word(name.spelling(), to),
        Instruction::Ask(name) => add_word(request_name(name), to),
        _ => {}
    }
}
