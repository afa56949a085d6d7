//! Statements: the code of each is put down, and that of a body statement after statement.
ghost use Rattle.std.specs.Prelude.{◌≡◌, ℕ, ◌+◌, [], ◌∷◌, ◌++◌, map, OnOk};
ghost use Rattle.ci_base.specs.declared.value.Kind.TheVariants.{Int};
ghost use Rattle.ci_translation.specs.Drafts.{stmt_code, other_code, block_code, block_size, clauses_code, count_code, raise_code};
ghost use Rattle.ci_translation.specs.Instructions.{past};
ghost use Rattle.ci_emit.specs.Contexts.{context, heads};
ghost use Rattle.ci_emit.specs.Pads.{word};
ghost use Rattle.ci_emit.specs.Writing.{Writes};
ghost use Rattle.ci_tree.specs.Bound as tree;
ghost use Rattle.ci_tree.specs.SeenBound.{scalar_of, expr_of, label_of, stmt_of, block_of, clauses_of};

use crate::counting::{count, raise};
use crate::expressions::{expression, expression_over};
use crate::instructions::writing;
use crate::labels::labels;
use crate::simple::{assign, assign_element, call_alone, give_back};
use crate::sizes::{block_size, clauses_size, labels_size};
use crate::word::{word, word_behind};
use crate::writer::Writer;
use ci_base::{Kind, OutOfMemory};
use ci_code::Instruction;
use ci_tree::bound::{Clause, Expr, Function, Label, ProjectParts, Scalar, Stmt};

/// A statement.
#[cycle(statements)]
fn statement(
    parts: &ProjectParts,
    function: &Function,
    writer: &mut Writer,
    stmt: &Stmt,
) -> Result<(), OutOfMemory>
    ensures { OnOk result (Writes writer.old writer.new (λ below p. stmt_code (context parts.now function.now) below p (stmt_of (heads parts.now) stmt.now))) }
{
    match stmt {
        Stmt::Assign { at: _, to, value } => assign(parts, function, writer, *to, value),
        Stmt::AssignElement {
            at: _,
            array,
            index,
            value,
        } => assign_element(parts, function, writer, *array, index.get(), value),
        Stmt::CallOf { at: _, call } => call_alone(parts, function, writer, call),
        Stmt::If {
            at: _,
            test,
            body,
            other,
        } => match other {
            None => choice(parts, function, writer, body.as_slice(), test.get()),
            Some(last) => {
                let (body, last) = (body.as_slice(), last.as_slice());
                choice_of_two(parts, function, writer, body, last, test.get())
            }
        },
        Stmt::While { at: _, test, body } => {
            repetition(parts, function, writer, body.as_slice(), test)
        }
        Stmt::For {
            at: _,
            counter,
            from,
            to,
            body,
        } => {
            let (from, to) = (from.get(), to.get());
            iteration(parts, function, writer, body.as_slice(), *counter, from, to)
        }
        Stmt::Select {
            at: _,
            subject,
            clauses,
            other,
        } => {
            let (clauses, last) = (clauses.as_slice(), other.as_slice());
            selection(parts, function, writer, clauses, last, subject.get())
        }
        Stmt::Return { at: _, value } => give_back(parts, function, writer, value),
    }
}

/// IF without ELSE.
#[cycle(statements)]
fn choice(
    parts: &ProjectParts,
    function: &Function,
    writer: &mut Writer,
    body: &[Stmt],
    test: &Expr,
) -> Result<(), OutOfMemory>
    ensures { (at : ℕ) → OnOk result (Writes writer.old writer.new (λ below p. stmt_code (context parts.now function.now) below p (tree.choose at (expr_of (heads parts.now) test.now) (block_of (heads parts.now) body.now) tree.no_other))) }
{
    writer.put(Instruction::Tick)?;
    expression(parts, function, writer, test)?;
    let size = block_size(parts.functions.as_slice(), body);
    writer.jump_if_zero(&[Kind::Int], 1, size)?;
    block(parts, function, writer, body)?;
    Ok(())
}

/// IF with this body behind ELSE.
#[cycle(statements)]
fn choice_of_two(
    parts: &ProjectParts,
    function: &Function,
    writer: &mut Writer,
    body: &[Stmt],
    last: &[Stmt],
    test: &Expr,
) -> Result<(), OutOfMemory>
    ensures { (at : ℕ) → OnOk result (Writes writer.old writer.new (λ below p. stmt_code (context parts.now function.now) below p (tree.choose at (expr_of (heads parts.now) test.now) (block_of (heads parts.now) body.now) (tree.other (block_of (heads parts.now) last.now))))) }
{
    writer.put(Instruction::Tick)?;
    expression(parts, function, writer, test)?;
    let size = block_size(parts.functions.as_slice(), body);
    writer.jump_if_zero(&[Kind::Int], 2, size)?;
    block(parts, function, writer, body)?;
    otherwise(parts, function, writer, last)?;
    Ok(())
}

/// ELSE of IF: what stands behind the other body goes past this one.
#[cycle(statements)]
fn otherwise(
    parts: &ProjectParts,
    function: &Function,
    writer: &mut Writer,
    last: &[Stmt],
) -> Result<(), OutOfMemory>
    ensures { OnOk result (Writes writer.old writer.new (λ below p. other_code (context parts.now function.now) below p (tree.other (block_of (heads parts.now) last.now)))) }
{
    let size = block_size(parts.functions.as_slice(), last);
    let behind = word_behind(writer.place(), 1, size);
    writer.put(Instruction::Jump(behind))?;
    block(parts, function, writer, last)?;
    Ok(())
}

/// WHILE.
#[cycle(statements)]
fn repetition(
    parts: &ProjectParts,
    function: &Function,
    writer: &mut Writer,
    body: &[Stmt],
    test: &Expr,
) -> Result<(), OutOfMemory>
    ensures { (at : ℕ) → OnOk result (Writes writer.old writer.new (λ below p. stmt_code (context parts.now function.now) below p (tree.while at (expr_of (heads parts.now) test.now) (block_of (heads parts.now) body.now)))) }
{
    writer.put(Instruction::Tick)?;
    let again = word(writer.place());
    writer.put(Instruction::Tick)?;
    expression(parts, function, writer, test)?;
    let inside = block_size(parts.functions.as_slice(), body);
    writer.jump_if_zero(&[Kind::Int], 2, inside)?;
    block(parts, function, writer, body)?;
    writer.put(Instruction::Jump(again))?;
    Ok(())
}

/// FOR. Both values are evaluated once; the last one stays below the body.
#[cycle(statements)]
fn iteration(
    parts: &ProjectParts,
    function: &Function,
    writer: &mut Writer,
    body: &[Stmt],
    counter: Scalar,
    from: &Expr,
    to: &Expr,
) -> Result<(), OutOfMemory>
    ensures { (at : ℕ) → OnOk result (Writes writer.old writer.new (λ below p. stmt_code (context parts.now function.now) below p (tree.for at (scalar_of counter) (expr_of (heads parts.now) from.now) (expr_of (heads parts.now) to.now) (block_of (heads parts.now) body.now)))) }
{
    writer.put(Instruction::Tick)?;
    expression(parts, function, writer, from)?;
    expression_over(parts, function, writer, &[Kind::Int], to)?;
    writer.put_over(&[Kind::Int, Kind::Int], Instruction::Swap)?;
    writer.put_over(&[Kind::Int, Kind::Int], writing(counter))?;
    rounds(parts, function, writer, body, counter)?;
    Ok(())
}

/// The test of FOR, its body, and the counter that goes up.
#[cycle(statements)]
fn rounds(
    parts: &ProjectParts,
    function: &Function,
    writer: &mut Writer,
    body: &[Stmt],
    counter: Scalar,
) -> Result<(), OutOfMemory>
    ensures { OnOk result (Writes writer.old writer.new (λ below p. count_code below (scalar_of counter) (past 10 (past 5 p + block_size (block_of (heads parts.now) body.now)))
        ++ (block_code (context parts.now function.now) (below ++ Int ∷ []) (past 5 p) (block_of (heads parts.now) body.now)
        ++ raise_code below (scalar_of counter) (past 5 p + block_size (block_of (heads parts.now) body.now)) p))) }
{
    let test = word(writer.place());
    let size = block_size(parts.functions.as_slice(), body);
    count(writer, counter, size)?;
    let depth = writer.depth();
    writer.over(&[Kind::Int])?;
    block(parts, function, writer, body)?;
    writer.back_to(depth);
    raise(writer, counter, test)?;
    Ok(())
}

/// SELECT.
#[cycle(statements)]
fn selection(
    parts: &ProjectParts,
    function: &Function,
    writer: &mut Writer,
    cases: &[Clause],
    last: &[Stmt],
    subject: &Expr,
) -> Result<(), OutOfMemory>
    ensures { (at : ℕ) → OnOk result (Writes writer.old writer.new (λ below p. stmt_code (context parts.now function.now) below p (tree.select at (expr_of (heads parts.now) subject.now) (clauses_of (heads parts.now) cases.now) (block_of (heads parts.now) last.now)))) }
{
    writer.put(Instruction::Tick)?;
    let kind = expression(parts, function, writer, subject)?;
    let size = clauses_size(parts.functions.as_slice(), cases);
    let behind = word_behind(writer.place(), 1, size);
    let size = block_size(parts.functions.as_slice(), last);
    let end = word_behind(behind as usize, 0, size);
    clauses(parts, function, writer, kind, end, cases)?;
    writer.put_over(&[kind], Instruction::Drop)?;
    block(parts, function, writer, last)?;
    Ok(())
}

/// The clauses of SELECT over a subject of this kind, whose end is at this place.
#[cycle(statements)]
fn clauses(
    parts: &ProjectParts,
    function: &Function,
    writer: &mut Writer,
    subject: Kind,
    end: u32,
    cases: &[Clause],
) -> Result<(), OutOfMemory>
    ensures { (to : ℕ) → end ≡ word to → OnOk result (Writes writer.old writer.new (λ below p. clauses_code (context parts.now function.now) below subject to p (clauses_of (heads parts.now) cases.now))) }
{
    for case in cases {
        let (body, tests) = (case.body.as_slice(), case.labels.as_slice());
        clause(parts, function, writer, subject, end, body, tests)?;
    }
    Ok(())
}

/// A clause of SELECT with this body and these labels.
#[cycle(statements)]
fn clause(
    parts: &ProjectParts,
    function: &Function,
    writer: &mut Writer,
    subject: Kind,
    end: u32,
    body: &[Stmt],
    tests: &[Label],
) -> Result<(), OutOfMemory>
    ensures { (to : ℕ) → end ≡ word to → OnOk result (Writes writer.old writer.new (λ below p. clauses_code (context parts.now function.now) below subject to p (tree.clause (map (label_of (heads parts.now)) tests.now) (block_of (heads parts.now) body.now) tree.no_clause))) }
{
    let size = labels_size(parts.functions.as_slice(), tests);
    let begin = word_behind(writer.place(), 1, size);
    labels(parts, function, writer, subject, begin, tests)?;
    let size = block_size(parts.functions.as_slice(), body);
    writer.jump(&[subject], 3, size)?;
    writer.put_over(&[subject], Instruction::Drop)?;
    block(parts, function, writer, body)?;
    writer.put(Instruction::Jump(end))?;
    Ok(())
}

/// A body.
#[cycle(statements)]
pub(crate) fn block(
    parts: &ProjectParts,
    function: &Function,
    writer: &mut Writer,
    body: &[Stmt],
) -> Result<(), OutOfMemory>
    ensures { OnOk result (Writes writer.old writer.new (λ below p. block_code (context parts.now function.now) below p (block_of (heads parts.now) body.now))) }
{
    for stmt in body {
        statement(parts, function, writer, stmt)?;
    }
    Ok(())
}
