//! The trees of the grammar, with the index of each token.
use crate::printer::Shown;
use ci_base::bounds::MOST_SOURCE_BYTES;
use ci_lexer::lex;
use ci_parser::{one_tree, parse, token_for_each_node, tree_or_refused};
use std::alloc::Global;
use std::process::Abort;
use std::test::Fail;

/// Asserts that the source has this tree.
fn has_tree(rt: &impl Abort, alloc: Global, source: &str, want: &str) -> Result<(), Fail> {
    assert!(rt; source.len() <= MOST_SOURCE_BYTES as usize);
    let tokens = lex(alloc, source.as_bytes())?;
    let tree = parse(alloc, &tokens)?;
    let shown = Shown::items(tree.items());
    assert_eq!(rt; shown.bytes(), want.as_bytes(), "tree of {source}");
    Ok(())
}

/// Files and their trees.
static FILES: [(&str, &str); 17] = [
    ("", ""),
    (
        "; INT a ; ; FUNCTION F() ; ; END ; GLOBAL INT b;",
        "2: MODULE INT@1 a; 6: PUBLIC F() END 15: GLOBAL INT@14 b;",
    ),
    (
        "INT a[5], b = 7, c = -7, d = \"x\", e;",
        "1: MODULE INT@0 a[5@3]; 6: MODULE INT@0 b = 7@8; 10: MODULE INT@0 c = -7@12; 15: MODULE INT@0 d = \"x\"@17; 19: MODULE INT@0 e;",
    ),
    (
        "GLOBAL INT a = -2147483648, c = -0xFFFFFFFF, d[0x80000000], e = TRUE, f[FALSE];",
        "2: GLOBAL INT@1 a = -2147483648@4; 7: GLOBAL INT@1 c = 1@9; 12: GLOBAL INT@1 d[-2147483648@14]; 17: GLOBAL INT@1 e = 1@19; 21: GLOBAL INT@1 f[0@23];",
    ),
    (
        "PRIVATE STRING FUNCTION F() END OBJECT FUNCTION G() END TIMESTAMP FUNCTION H() END",
        "3: PRIVATE STRING@1 F() END 9: PUBLIC OBJECT@7 G() END 15: PUBLIC TIMESTAMP@13 H() END",
    ),
    (
        "FUNCTION F(INT a = 1, STRING b = \"x\", INT c = -5, REAL d, QUALITY e) END",
        "1: PUBLIC F(INT@3 a@4 = 1@6, STRING@8 b@9 = \"x\"@11, INT@13 c@14 = -5@16, REAL@19 d@20, QUALITY@22 e@23) END",
    ),
    (
        "FUNCTION F() STRING s = \"x\", t, u = s; INT a = b = c; END",
        "1: PUBLIC F() 4: STRING@4 s@5 = \"x\"@7, t@9, u@11 = s@13; 15: INT@15 a@16 = {b@18 =@19 c@20}@18:19; END",
    ),
    (
        "FUNCTION F() a[1 + b[2]] = c[3]; F(1, \"x\", y); RETURN; RETURN (a); END",
        "1: PUBLIC F() 4: a[{1@6 +@7 b[2@10]@8}@6:7] =@13 c[3@16]@14; 19: F(1@21, \"x\"@23, y@25); 28: RETURN; 30: RETURN a@31:32; END",
    ),
    (
        "FUNCTION F() IF a THEN IF b THEN F(); ELSE G(); END END END",
        "1: PUBLIC F() 4: IF a@5 THEN 7: IF b@8 THEN 10: F(); ELSE 15: G(); END END END",
    ),
    (
        "FUNCTION F() IF a THEN IF b THEN END ELSE F(); END END",
        "1: PUBLIC F() 4: IF a@5 THEN 7: IF b@8 THEN END ELSE 12: F(); END END",
    ),
    (
        "FUNCTION F() WHILE a DO F(); ; INT b; END END",
        "1: PUBLIC F() 4: WHILE a@5 DO 7: F(); 12: INT@12 b@13; END END",
    ),
    (
        "FUNCTION F() FOR i = a + 1 TO b[2] DO x = i; END END",
        "1: PUBLIC F() 4: FOR i@5 = {a@7 +@8 1@9}@7:8 TO b[2@13]@11 DO 16: x =@17 i@18; END END",
    ),
    (
        "FUNCTION F() FOR i = a = b TO c DO END END",
        "1: PUBLIC F() 4: FOR i@5 = {a@7 =@8 b@9}@7:8 TO c@11 DO END END",
    ),
    (
        "FUNCTION F() SELECT CASE a CASE 1, 2 TO 3, IS < 4 F(); CASE ELSE G(); END SELECT END",
        "1: PUBLIC F() 4: SELECT a@6 7: CASE 1@8, 2@10 TO 3@12, IS@14 < 4@16 DO 17: F(); ELSE 23: G(); END END",
    ),
    (
        "FUNCTION F() SELECT CASE a CASE b c = 1; CASE d[1] e(); CASE IS = f = g, (h) END SELECT END",
        "1: PUBLIC F() 4: SELECT a@6 7: CASE b@8 DO 9: c =@10 1@11; 13: CASE d[1@16]@14 DO 18: e(); 22: CASE IS@23 = {f@25 =@26 g@27}@25:26, h@29:30 DO END END",
    ),
    (
        "FUNCTION F() SELECT CASE a CASE 1 SELECT CASE b CASE ELSE END SELECT CASE 2 IF c THEN END CASE ELSE END SELECT END",
        "1: PUBLIC F() 4: SELECT a@6 7: CASE 1@8 DO 9: SELECT b@11 ELSE END 16: CASE 2@17 DO 18: IF c@19 THEN END ELSE END END",
    ),
    (
        "FUNCTION F() SELECT CASE a END SELECT SELECT CASE s CASE -1 TO -2 RETURN; END SELECT END",
        "1: PUBLIC F() 4: SELECT a@6 END 9: SELECT s@11 12: CASE {- 1@14}@13 TO {- 2@17}@16 DO 18: RETURN; END END",
    ),
];

/// Expressions that begin at token 5, and their trees.
static EXPRESSIONS: [(&str, &str); 18] = [
    ("a[b[i]]", "a[b[i@9]@7]@5"),
    ("F(G(), a[H(1)])", "F(G()@7, a[H(1@15)@13]@11)@5"),
    ("NOT -NOT 1", "{NOT {- {NOT 1@8}@7}@6}@5"),
    ("((x))", "x@5:7"),
    ("(F((1)))", "F(1@8:9)@5:6"),
    ("-(x)", "{- x@6:7}@5"),
    ("((a) + (b))", "{a@6:7 +@9 b@10:11}@5:9"),
    (
        "a BITAND b BITOR c BITXOR d",
        "{a@5 BITAND@6 b@7 BITOR@8 c@9 BITXOR@10 d@11}@5:6",
    ),
    ("a = b <> c = d", "{a@5 =@6 b@7 <>@8 c@9 =@10 d@11}@5:6"),
    (
        "a < b > c <= d >= e",
        "{a@5 <@6 b@7 >@8 c@9 <=@10 d@11 >=@12 e@13}@5:6",
    ),
    ("a:#:##:###", "{a@5 :@6 1 :@8 2 :@10 3}@5:6"),
    ("a * b / c MOD d", "{a@5 *@6 b@7 /@8 c@9 MOD@10 d@11}@5:6"),
    ("a + b:#", "{a@5 +@6 {b@7 :@8 1}@7:8}@5:6"),
    ("a * b:#", "{{a@5 *@6 b@7}@5:6 :@8 1}@5:8"),
    ("-a * b", "{{- a@6}@5 *@7 b@8}@5:7"),
    ("NOT a = b", "{{NOT a@6}@5 =@7 b@8}@5:7"),
    (
        "a BITOR b OR c AND d = e < f + g * -h:##",
        "{a@5 BITOR@6 {b@7 OR@8 {c@9 AND@10 {d@11 =@12 {e@13 <@14 {f@15 +@16 {{g@17 *@18 {- h@20}@19}@17:18 :@21 2}@17:21}@15:16}@13:14}@11:12}@9:10}@7:8}@5:6",
    ),
    (
        "a * b:# + c < d = e AND f OR g BITXOR h",
        "{{{{{{{{a@5 *@6 b@7}@5:6 :@8 1}@5:8 +@10 c@11}@5:10 <@12 d@13}@5:12 =@14 e@15}@5:14 AND@16 f@17}@5:16 OR@18 g@19}@5:18 BITXOR@20 h@21}@5:20",
    ),
];

/// Asserts that this expression, which begins at token 5, has this tree.
fn returned(rt: &impl Abort, alloc: Global, expression: &str, want: &str) -> Result<(), Fail> {
    let source = format!(in alloc; "FUNCTION F() RETURN {expression}; END")?;
    let tree = format!(in alloc; "1: PUBLIC F() 4: RETURN {want}; END")?;
    has_tree(rt, alloc, source.as_str(), tree.as_str())
}

#[test]
fn sources_have_their_trees(rt: HostRuntime) -> Result<(), Fail> {
    tree_or_refused();
    one_tree();
    token_for_each_node();
    for (source, want) in FILES.iter().copied() {
        has_tree(&rt, rt.alloc(), source, want)?;
    }
    for (source, want) in EXPRESSIONS.iter().copied() {
        returned(&rt, rt.alloc(), source, want)?;
    }
    Ok(())
}

/// Each operator with the strength of its group.
static OPERATORS: [(&str, u32); 16] = [
    ("BITAND", 0),
    ("BITOR", 0),
    ("BITXOR", 0),
    ("OR", 1),
    ("AND", 2),
    ("=", 3),
    ("<>", 3),
    ("<", 4),
    (">", 4),
    ("<=", 4),
    (">=", 4),
    ("+", 5),
    ("-", 5),
    ("*", 7),
    ("/", 7),
    ("MOD", 7),
];

/// The tree of `a ONE b TWO c`.
fn tree_of_two(alloc: Global, one: (&str, u32), two: (&str, u32)) -> Result<String, Fail> {
    let (first, strength) = one;
    let (second, other) = two;
    Ok(if strength > other {
        format!(in alloc; "{{{{a@5 {first}@6 b@7}}@5:6 {second}@8 c@9}}@5:8")?
    } else if strength < other {
        format!(in alloc; "{{a@5 {first}@6 {{b@7 {second}@8 c@9}}@7:8}}@5:6")?
    } else {
        format!(in alloc; "{{a@5 {first}@6 b@7 {second}@8 c@9}}@5:6")?
    })
}

#[test]
fn each_two_operators_bind_by_their_groups(rt: HostRuntime) -> Result<(), Fail> {
    let alloc = rt.alloc();
    for one in OPERATORS.iter().copied() {
        for two in OPERATORS.iter().copied() {
            let (first, second) = (one.0, two.0);
            let source = format!(in alloc; "a {first} b {second} c")?;
            let want = tree_of_two(alloc, one, two)?;
            returned(&rt, alloc, source.as_str(), want.as_str())?;
        }
    }
    Ok(())
}
