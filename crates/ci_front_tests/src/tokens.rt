//! The tokens of sources: what each token holds isn't seen from outside.
use ci_base::bounds::MOST_SOURCE_BYTES;
use ci_lexer::{lex, one_reading};
use ci_tree::{Keyword, Sign, Token, TokenKind};
use std::test::Fail;

/// A token that is wanted.
#[derive(Clone, Copy)]
enum Want {
    Name(&'static [u8]),
    Word(Keyword),
    Number(i32),
    Text(&'static [u8]),
    Hashes(u32),
    Sign(Sign),
}

fn is_wanted(what: &TokenKind, want: Want) -> bool {
    match (what, want) {
        (TokenKind::Name(bytes), Want::Name(wanted)) => bytes.bytes() == wanted,
        (TokenKind::Keyword(word), Want::Word(wanted)) => *word == wanted,
        (TokenKind::Number(value), Want::Number(wanted)) => *value == wanted,
        (TokenKind::Text(bytes), Want::Text(wanted)) => bytes.bytes() == wanted,
        (TokenKind::Hashes(count), Want::Hashes(wanted)) => *count == wanted,
        (TokenKind::Sign(sign), Want::Sign(wanted)) => *sign == wanted,
        _ => false,
    }
}

fn are_wanted(tokens: &[Token], wants: &[(Want, u32)]) -> bool {
    if tokens.len() != wants.len() {
        return false;
    }
    for (token, want) in tokens.iter().zip(wants) {
        if token.place != want.1 || !is_wanted(&token.what, want.0) {
            return false;
        }
    }
    true
}

#[test]
fn tokens_hold_their_values_and_places(rt: HostRuntime) -> Result<(), Fail> {
    one_reading();
    let rows: [(&[u8], &[(Want, u32)]); 7] = [
        (b" \t! x\n", &[]),
        (
            b"\xEF\xBB\xBFtHEN Timestamp",
            &[
                (Want::Word(Keyword::Then), 3),
                (Want::Word(Keyword::Timestamp), 8),
            ],
        ),
        (
            b"azAZ_09/**/_",
            &[(Want::Name(b"azAZ_09"), 0), (Want::Name(b"_"), 11)],
        ),
        (
            b"007 2147483647 2147483648 TRUE",
            &[
                (Want::Number(7), 0),
                (Want::Number(2147483647), 4),
                (Want::Number(-2147483648), 15),
                (Want::Number(1), 26),
            ],
        ),
        (
            b"0xFFFFFFFF 0X7fffFFFE",
            &[(Want::Number(-1), 0), (Want::Number(2147483646), 11)],
        ),
        (
            b"\"^\"^^^'^n^r^t^0x41^0xfF\"\"\"",
            &[(Want::Text(b"\"^'\n\r\tA\xFF"), 0), (Want::Text(b""), 24)],
        ),
        (
            b"<><:##=>",
            &[
                (Want::Sign(Sign::Unequal), 0),
                (Want::Sign(Sign::Less), 2),
                (Want::Sign(Sign::Colon), 3),
                (Want::Hashes(2), 4),
                (Want::Sign(Sign::Equal), 6),
                (Want::Sign(Sign::Greater), 7),
            ],
        ),
    ];
    for (source, wants) in rows {
        assert!(rt; source.len() <= MOST_SOURCE_BYTES as usize);
        let list = lex(rt.alloc(), source)?;
        assert!(rt; are_wanted(list.tokens(), wants), "tokens of {source:?}");
    }
    Ok(())
}
