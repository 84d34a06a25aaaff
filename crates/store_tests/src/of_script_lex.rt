//! Lines and pictures of their tokens, drawn by hand from the table of tokens.
use itpg_base::TextCode;
use script_lex::{Token, What, next_token};
use std::alloc::{AllocError, Global};

// Below each byte of a token its kind, W, N, Q or M for a word, a number, a quoted text or a mark, small behind the first byte.
// Behind these `!` where the line ends by `Byte`, and `?` by `Text`.
fn picture(alloc: Global, line: &[u8]) -> Result<Vec<u8>, AllocError> {
    let mut drawn = Vec::new(alloc);
    let mut at = 0;
    for _ in 0..100 {
        match next_token(line, at) {
            Ok(Some(token)) => {
                draw(&mut drawn, &token)?;
                at = token.to;
            }
            Ok(None) => break,
            Err(code) => {
                drawn.push(if code == TextCode::Byte { b'!' } else { b'?' })?;
                break;
            }
        }
    }
    Ok(drawn)
}

fn draw(drawn: &mut Vec<u8>, token: &Token<'_>) -> Result<(), AllocError> {
    let (first, next) = match token.what {
        What::Word(_) => (b'W', b'w'),
        What::Number(_) => (b'N', b'n'),
        What::Quoted(_) => (b'Q', b'q'),
        What::Mark(_) => (b'M', b'm'),
    };
    drawn.resize(token.from, b' ')?;
    drawn.push(first)?;
    drawn.resize(token.to, next)
}

const LINES: [(&[u8], &[u8]); 14] = [
    (b"", b""),
    (b" \t", b""),
    (b"\t live  n1 -3 7 \t", b"  Wwww  Ww Nn N"),
    (b"12ab_3-0_x", b"NnWwwwNnMW"),
    (b"''a'in use''~ '", b"QqWQqqqqqqqQqqq"),
    (b"p*/-/x>=07", b"WMMmMWMmNn"),
    (b"-/-4/-4", b"MmNnMmN"),
    (b"a - b", b"W!"),
    (b"a-", b"W!"),
    (b"a\r", b"W!"),
    (b"a'b\x7f'", b"W!"),
    (b"a'b\x1f", b"W!"),
    (b"a'b c", b"W?"),
    (b"a'", b"W?"),
];

#[test]
fn lines_have_their_tokens(rt: HostRuntime) {
    for (line, wanted) in LINES {
        let found = picture(rt.alloc(), line).expect(&rt, "memory");
        assert!(rt; found.as_slice() == wanted, "{line:?}");
    }
}
