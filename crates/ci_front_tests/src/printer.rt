//! Trees as texts that show every index. `x@7` is at token 7; `{x@7 +@8 1@9}@7:8` is an expression that starts at token 7
//! and is at token 8. Chains and unary operators stand in braces. Items, statements and clauses have their index before them.
use arrayvec::ArrayVec;
use ci_base::{Bytes, Relation};
use ci_tree::{
    Const, Expr, ExprKind, Item, Label, Length, Link, LocalAt, Operator, Param, Stmt, TypeAt,
    TypeName,
};
use itoa::Buffer;

/// A text that is cut where it passes 4,096 bytes, so that putting it needs no memory and can't fail.
#[derive(Drop)]
pub struct Shown {
    text: ArrayVec<u8, 4096>,
}

impl Shown {
    /// The items of a file.
    pub fn items(items: &[Item]) -> Shown {
        let mut out = Shown {
            text: ArrayVec::new(),
        };
        for (i, item) in items.iter().enumerate() {
            if i > 0 {
                out.put(" ");
            }
            put_item(&mut out, item);
        }
        out
    }

    pub fn bytes(&self) -> &[u8] {
        self.text.as_slice()
    }

    fn put(&mut self, text: &str) {
        let _fits = self.text.try_extend_from_slice(text.as_bytes());
    }

    fn name(&mut self, name: &Bytes) {
        let _fits = self.text.try_extend_from_slice(name.bytes());
    }

    fn at(&mut self, index: u32) {
        let mut buffer = Buffer::new();
        self.put(buffer.format(index));
    }

    fn number(&mut self, value: i32) {
        let mut buffer = Buffer::new();
        self.put(buffer.format(value));
    }
}

fn put_item(out: &mut Shown, item: &Item) {
    match item {
        Item::Function {
            at,
            name,
            private,
            gives,
            params,
            body,
        } => {
            out.at(*at);
            out.put(": ");
            out.put(if *private { "PRIVATE " } else { "PUBLIC " });
            if let Some(kind) = gives {
                put_type(out, *kind);
            }
            out.name(name);
            put_parameters(out, params.as_slice());
            put_block(out, body.as_slice());
            out.put(" END");
        }
        Item::Variable {
            at,
            name,
            global,
            kind,
            length,
            first,
        } => {
            out.at(*at);
            out.put(": ");
            out.put(if *global { "GLOBAL " } else { "MODULE " });
            put_type(out, *kind);
            out.name(name);
            put_length(out, *length);
            put_first(out, first);
            out.put(";");
        }
    }
}

fn put_parameters(out: &mut Shown, params: &[Param]) {
    out.put("(");
    for (i, param) in params.iter().enumerate() {
        if i > 0 {
            out.put(", ");
        }
        put_type(out, param.kind);
        out.name(&param.name);
        let at = param.at;
        out.put("@");
        out.at(at);
        put_first(out, &param.first);
    }
    out.put(")");
}

fn put_type(out: &mut Shown, kind: TypeAt) {
    out.put(match kind.name {
        TypeName::Int => "INT",
        TypeName::String => "STRING",
        TypeName::Real => "REAL",
        TypeName::Object => "OBJECT",
        TypeName::Quality => "QUALITY",
        TypeName::Timestamp => "TIMESTAMP",
    });
    let at = kind.at;
    out.put("@");
    out.at(at);
    out.put(" ");
}

fn put_length(out: &mut Shown, length: Option<Length>) {
    if let Some(Length { at, value }) = length {
        out.put("[");
        out.number(value);
        out.put("@");
        out.at(at);
        out.put("]");
    }
}

fn put_first(out: &mut Shown, first: &Option<Const>) {
    match first {
        None => {}
        Some(Const::Number { at, value }) => {
            out.put(" = ");
            out.number(*value);
            out.put("@");
            out.at(*at);
        }
        Some(Const::Literal { at, text }) => {
            out.put(" = ");
            put_text(out, text);
            out.put("@");
            out.at(*at);
        }
    }
}

fn put_text(out: &mut Shown, text: &Bytes) {
    out.put("\"");
    out.name(text);
    out.put("\"");
}

#[cycle(statements)]
fn put_block(out: &mut Shown, block: &[Stmt]) {
    for statement in block {
        out.put(" ");
        put_statement(out, statement);
    }
}

#[cycle(statements)]
fn put_statement(out: &mut Shown, statement: &Stmt) {
    put_head(out, statement);
    match statement {
        Stmt::If { body, other, .. } => {
            put_block(out, body.as_slice());
            if let Some(block) = other {
                out.put(" ELSE");
                put_block(out, block.as_slice());
            }
            out.put(" END");
        }
        Stmt::While { body, .. } | Stmt::For { body, .. } => {
            put_block(out, body.as_slice());
            out.put(" END");
        }
        Stmt::Select { clauses, other, .. } => {
            for clause in clauses.as_slice() {
                put_labels(out, clause.at, clause.labels.as_slice());
                put_block(out, clause.body.as_slice());
            }
            if let Some(block) = other {
                out.put(" ELSE");
                put_block(out, block.as_slice());
            }
            out.put(" END");
        }
        _ => {}
    }
}

/// A statement up to its first block.
fn put_head(out: &mut Shown, statement: &Stmt) {
    match statement {
        Stmt::Declare { at, kind, locals } => put_declare(out, *at, *kind, locals.as_slice()),
        Stmt::Assign {
            at,
            name,
            index,
            equals,
            value,
        } => put_assign(out, *at, name, index, *equals, value),
        Stmt::CallOf { at, name, args } => {
            out.at(*at);
            out.put(": ");
            out.name(name);
            put_arguments(out, args.as_slice());
            out.put(";");
        }
        Stmt::If { at, test, .. } => put_test(out, *at, "IF", test, "THEN"),
        Stmt::While { at, test, .. } => put_test(out, *at, "WHILE", test, "DO"),
        Stmt::For {
            at,
            name_at,
            name,
            from,
            to,
            ..
        } => put_for(out, *at, *name_at, name, from, to),
        Stmt::Select { at, subject, .. } => {
            out.at(*at);
            out.put(": SELECT ");
            put_expression(out, subject)
        }
        Stmt::Return { at, value } => put_return(out, *at, value),
    }
}

fn put_declare(out: &mut Shown, at: u32, kind: TypeAt, locals: &[LocalAt]) {
    out.at(at);
    out.put(": ");
    put_type(out, kind);
    for (i, local) in locals.iter().enumerate() {
        if i > 0 {
            out.put(", ");
        }
        out.name(&local.name);
        let local_at = local.at;
        out.put("@");
        out.at(local_at);
        if let Some(value) = &local.value {
            out.put(" = ");
            put_expression(out, value);
        }
    }
    out.put(";");
}

fn put_assign(
    out: &mut Shown,
    at: u32,
    name: &Bytes,
    index: &Option<Expr>,
    equals: u32,
    value: &Expr,
) {
    out.at(at);
    out.put(": ");
    out.name(name);
    if let Some(place) = index {
        out.put("[");
        put_expression(out, place);
        out.put("]");
    }
    out.put(" =@");
    out.at(equals);
    out.put(" ");
    put_expression(out, value);
    out.put(";");
}

/// A word, a condition and a word.
fn put_test(out: &mut Shown, at: u32, word: &str, test: &Expr, then: &str) {
    out.at(at);
    out.put(": ");
    out.put(word);
    out.put(" ");
    put_expression(out, test);
    out.put(" ");
    out.put(then);
}

fn put_for(out: &mut Shown, at: u32, name_at: u32, name: &Bytes, from: &Expr, to: &Expr) {
    out.at(at);
    out.put(": FOR ");
    out.name(name);
    out.put("@");
    out.at(name_at);
    out.put(" = ");
    put_expression(out, from);
    out.put(" TO ");
    put_expression(out, to);
    out.put(" DO");
}

fn put_return(out: &mut Shown, at: u32, value: &Option<Expr>) {
    out.at(at);
    out.put(": RETURN");
    if let Some(given) = value {
        out.put(" ");
        put_expression(out, given);
    }
    out.put(";");
}

/// A CASE with its labels.
fn put_labels(out: &mut Shown, at: u32, labels: &[Label]) {
    out.put(" ");
    out.at(at);
    out.put(": CASE ");
    for (i, label) in labels.iter().enumerate() {
        if i > 0 {
            out.put(", ");
        }
        put_label(out, label);
    }
    out.put(" DO");
}

fn put_label(out: &mut Shown, label: &Label) {
    match label {
        Label::One { value } => put_expression(out, value),
        Label::Range { low, high } => {
            put_expression(out, low);
            out.put(" TO ");
            put_expression(out, high)
        }
        Label::Is {
            at,
            relation,
            value,
        } => {
            out.put("IS@");
            out.at(*at);
            out.put(" ");
            out.put(relation_text(*relation));
            out.put(" ");
            put_expression(out, value)
        }
    }
}

#[cycle(expressions)]
fn put_arguments(out: &mut Shown, args: &[Expr]) {
    out.put("(");
    for (i, argument) in args.iter().enumerate() {
        if i > 0 {
            out.put(", ");
        }
        put_expression(out, argument);
    }
    out.put(")");
}

#[cycle(expressions)]
fn put_expression(out: &mut Shown, expression: &Expr) {
    match &expression.what {
        ExprKind::Number { value } => {
            out.number(*value);
        }
        ExprKind::Literal { text } => put_text(out, text),
        ExprKind::Name { name } => out.name(name),
        ExprKind::Element { name, index } => {
            out.name(name);
            out.put("[");
            put_expression(out, index.get());
            out.put("]");
        }
        ExprKind::CallOf { name, args } => {
            out.name(name);
            put_arguments(out, args.as_slice());
        }
        ExprKind::Unary { minus, operand } => {
            out.put(if *minus { "{- " } else { "{NOT " });
            put_expression(out, operand.get());
            out.put("}");
        }
        ExprKind::Chain { first, rest } => {
            out.put("{");
            put_expression(out, first.get());
            put_links(out, rest.as_slice());
            out.put("}");
        }
    }
    put_place(out, expression.start, expression.at)
}

#[cycle(expressions)]
fn put_links(out: &mut Shown, links: &[Link]) {
    for link in links {
        match link {
            Link::Operand {
                at,
                operator,
                operand,
            } => {
                out.put(" ");
                out.put(operator_text(*operator));
                out.put("@");
                out.at(*at);
                out.put(" ");
                put_expression(out, operand);
            }
            Link::Hashes { at, count } => {
                out.put(" :@");
                out.at(*at);
                out.put(" ");
                out.at(*count);
            }
        }
    }
}

fn put_place(out: &mut Shown, start: u32, at: u32) {
    if start == at {
        out.put("@");
        out.at(at);
    } else {
        out.put("@");
        out.at(start);
        out.put(":");
        out.at(at);
    }
}

fn operator_text(operator: Operator) -> &'static str {
    match operator {
        Operator::BitAnd => "BITAND",
        Operator::BitOr => "BITOR",
        Operator::BitXor => "BITXOR",
        Operator::Or => "OR",
        Operator::And => "AND",
        Operator::Equal => "=",
        Operator::Unequal => "<>",
        Operator::Less => "<",
        Operator::Greater => ">",
        Operator::AtMost => "<=",
        Operator::AtLeast => ">=",
        Operator::Plus => "+",
        Operator::Minus => "-",
        Operator::Times => "*",
        Operator::Over => "/",
        Operator::Mod => "MOD",
    }
}

fn relation_text(relation: Relation) -> &'static str {
    match relation {
        Relation::Equal => "=",
        Relation::Unequal => "<>",
        Relation::Less => "<",
        Relation::Greater => ">",
        Relation::AtMost => "<=",
        Relation::AtLeast => ">=",
    }
}
