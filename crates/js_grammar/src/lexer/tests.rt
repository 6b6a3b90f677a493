//! Rows: a text, and its tokens or that it has none.
//!
//! A token is shown by a letter for its kind and its offset: `w` a name or a word, `s` a sign, `n` a
//! number, `q` a string. `-` says that the text is no list of tokens.

use super::tokens;
use crate::refusal::ReadRefusal;
use crate::token::Lexeme;
use std::alloc::{AllocError, Global};
use std::fmt::Write;
use std::test::Fail;

fn letter(lexeme: Lexeme) -> char {
    match lexeme {
        Lexeme::Word(_) => 'w',
        Lexeme::Sign(_) => 's',
        Lexeme::Number(_) => 'n',
        Lexeme::Quoted(_) => 'q',
    }
}

// The tokens of a text.
fn shown(alloc: Global, text: &[u8]) -> Result<String, AllocError> {
    let mut out = String::new(alloc);
    if text.len() >= 1000 {
        return Ok(out);
    }
    match tokens(alloc, text, 0) {
        Ok(found) => {
            for t in found.as_slice() {
                let at = t.at;
                out.push(letter(t.lexeme))?;
                write!(out, "{at}")?;
            }
        }
        Err(ReadRefusal::Syntax(_)) => out.push('-')?,
        Err(ReadRefusal::NoMemory) => out.push_str("no memory")?,
    }
    Ok(out)
}

#[test]
fn rows(rt: HostRuntime) -> Result<(), Fail> {
    for (text, wanted) in [
        ("", ""),
        (" \n ", ""),
        ("$a- -1", "w0s2s4n5"),
        ("$a--1", "w0s2n4"),
        ("$a>>>=$b>>>$c>=$d", "w0s2w6s8w11s13w15"),
        ("$a===$b!==$c", "w0s2w5s7w10"),
        ("1 .length", "n0s2w3"),
        ("1.length", "-"),
        ("1in", "-"),
        ("01", "-"),
        ("0", "n0"),
        ("9007199254740992", "n0"),
        ("9007199254740993", "-"),
        ("return 1", "w0n7"),
        ("return\n1", "-"),
        ("return;\n1", "w0s6n8"),
        ("throw\n$a", "-"),
        ("break\n", "-"),
        ("breaks\n", "w0"),
        ("\"a\\x0a\\\"\"$b", "q0w9"),
        ("\"\\x0A\"", "-"),
        ("\"\\u0041\"", "-"),
        ("\"\\x41\"", "-"),
        ("\"a", "-"),
        ("'a'", "-"),
        ("//c", "s0s1w2"),
        ("\t", "-"),
        ("\r\n", "-"),
        ("#", "-"),
    ] {
        let answer = shown(rt.alloc(), text.as_bytes())?;
        assert_eq!(rt; answer.as_str(), wanted, "{text}");
    }
    Ok(())
}
