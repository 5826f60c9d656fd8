// Tokens of texts, with their kinds and their places.

use std::alloc::{AllocError, Global};
use std::test::Fail;
use strc_lex::error::LexError;
use strc_lex::lexer::{lex, one_token_list};
use strc_lex::token::{Keyword, Punctuation, Token, TokenKind};
use strc_lex_names::name::{Name, StringLiteral};

// The tokens as they are in the text, with a blank between two.
fn spaced(alloc: Global, text: &[u8], tokens: &[Token]) -> Result<Vec<u8>, AllocError> {
    let mut shown = Vec::new(alloc);
    for token in tokens {
        if !shown.is_empty() {
            shown.push(b' ')?;
        }
        if token.span.start <= token.span.end && token.span.end <= text.len() {
            shown.extend_from_slice(&text[token.span.start..token.span.end])?;
        }
    }
    Ok(shown)
}

// Each text, and after `|` its tokens with a blank between two.
const SPACED: &str = "\
    |@\
    \x20\t\n\u{c}\r |@\
    x+++y|x ++ + y@\
    a<<=b|a << = b@\
    workx work|workx work@\
    int->void|int -> void@\
    a/=b/c|a /= b / c@\
    0 10;_a1(|0 10 ; _a1 (@\
    a/b|a / b@\
    a/ /b|a / / b@\
    \"\"|\"\"@\
    \"a b\"x|\"a b\" x@\
    x\"//\"\"/*\"|x \"//\" \"/*\"@\
    a//b|a@\
    //|@\
    x //|x@\
    // to the end|@\
    x // one line\ny|x y@\
    //\n//\nx|x@\
    // a // b\nc|c@\
    // /*\nx // */|x@\
    /**/|@\
    a/**/b|a b@\
    /***/x|x@\
    /*/*/x|x@\
    /* /* */ x|x@\
    /* one\ntwo */ x|x@\
    /* // */ x|x@\
    a/* */ /* *//b|a / b\
";

#[test]
fn takes_the_longest_token_and_passes_over_comments(rt: HostRuntime) -> Result<(), Fail> {
    for row in SPACED.split('@') {
        let (text, want) = row.split_once('|').ok_or("a row without two parts")?;
        let tokens = lex(rt.alloc(), text.as_bytes())?;
        let shown = spaced(rt.alloc(), text.as_bytes(), tokens.as_slice())?;
        assert_eq!(rt; shown.as_slice(), want.as_bytes(), "at {text:?}");
    }
    Ok(())
}

#[test]
fn tells_kinds_and_places(rt: HostRuntime) -> Result<(), Fail> {
    let text = b"splits split 2147483648 2147483647 || \"\xff\x80\x00\r'\" /* \xc3\xa4 */ // \x80";
    let tokens = lex(rt.alloc(), text)?;
    assert_eq!(rt; tokens.len(), 6);
    let name = Name::new(b"splits".to_vec(rt.alloc())?);
    let found = match &tokens[0].kind {
        TokenKind::Name(other) => other.is(&name) && other.copy()?.as_bytes() == name.as_bytes(),
        _ => false,
    };
    assert!(rt; found);
    assert!(rt; matches!(&tokens[1].kind, TokenKind::Keyword(Keyword::Split)));
    assert!(rt; matches!(&tokens[2].kind, TokenKind::Number(i32::MIN)));
    assert!(rt; matches!(&tokens[3].kind, TokenKind::Number(i32::MAX)));
    assert!(rt; matches!(&tokens[4].kind, TokenKind::Punctuation(Punctuation::OrOr)));
    assert_eq!(rt; tokens[4].span.start, 35);
    let inner = StringLiteral::new(b"\xff\x80\x00\r'".to_vec(rt.alloc())?);
    let found = match &tokens[5].kind {
        TokenKind::StringLiteral(other) => other.copy()?.as_bytes() == inner.as_bytes(),
        _ => false,
    };
    assert!(rt; found);
    let tokens = lex(rt.alloc(), b"/* 1 */a // 2\n \"bc\"/*3*/+=")?;
    let want: [(usize, usize); 3] = [(7, 8), (15, 19), (24, 26)];
    let mut places = Vec::new(rt.alloc());
    for token in &tokens {
        places.push((token.span.start, token.span.end))?;
    }
    assert_eq!(rt; places.as_slice(), want.as_slice());
    let reported = format!(in rt.alloc(); "{}", LexError::Lex { at: 12 })?;
    assert_eq!(rt; reported.as_str(), "no token begins at byte 12");
    one_token_list();
    Ok(())
}
