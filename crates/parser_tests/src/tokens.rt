//! Texts whose tokens and faults are known by hand.

ghost use Rattle.std.specs.Prelude.{◌^◌, ◌<◌, length};

use base_core::Place;
use hl_lexer::{LexFault, Terminal, TokenKind, is_name, laws, lex};
use std::test::Fail;

const WORDS: &[u8] = b"void bool int uint bool2 bool3 bool4 int2 int3 int4 uint2 uint3 uint4 \
    struct static const groupshared in out inout if else for while do break continue return true \
    false register ByteAddressBuffer RWByteAddressBuffer StructuredBuffer RWStructuredBuffer";

const MARKS: &[u8] = b"( ) { } [ ] ; , . : ? = + - * / % < > ! ~ & | ^ && || == != <= >= << >> += \
    -= *= /= %= &= |= ^= <<= >>= ++ --";

fn place(line: u32, column: u32) -> Place {
    Place { line, column }
}

fn number(value: u32, unsigned: bool) -> TokenKind {
    TokenKind::Number { value, unsigned }
}

/// Whether the tokens of a text are of these kinds.
fn has_kinds(rt: &HostRuntime, text: &[u8], kinds: &[TokenKind]) -> Result<bool, Fail>
    requires { length text.now < 2 ^ 31 }
{
    let tokens = lex(rt.alloc(), text)?;
    let found = tokens.list.as_slice();
    Ok(
        found.len() == kinds.len()
            && found
                .iter()
                .zip(kinds)
                .all(|(token, kind)| token.kind == *kind),
    )
}

/// The fault of a text.
fn fault(rt: &HostRuntime, text: &[u8]) -> Option<LexFault>
    requires { length text.now < 2 ^ 31 }
{
    lex(rt.alloc(), text).err()
}

#[test]
fn numbers_words_and_marks_by_their_places_in_the_tables(rt: HostRuntime) -> Result<(), Fail> {
    let words = lex(rt.alloc(), WORDS)?;
    assert_eq!(rt; words.list.len(), 35);
    for (number, token) in words.list.as_slice().iter().enumerate() {
        assert_eq!(rt; token.kind, TokenKind::Word((number % 256) as u8));
    }
    let marks = lex(rt.alloc(), MARKS)?;
    assert_eq!(rt; marks.list.len(), 44);
    for (number, token) in marks.list.as_slice().iter().enumerate() {
        assert_eq!(rt; token.kind, TokenKind::Mark((number % 256) as u8));
    }
    assert_eq!(rt; TokenKind::Word(13).terminal(), Terminal::Struct);
    assert_eq!(rt; TokenKind::Mark(43).terminal(), Terminal::MinusMinus);
    assert_eq!(rt; TokenKind::Mark(44).terminal(), Terminal::Unlisted);
    Ok(())
}

#[test]
fn takes_the_longest_token(rt: HostRuntime) -> Result<(), Fail> {
    let name = TokenKind::Name;
    let names = [name, TokenKind::Word(2), name, name];
    assert!(rt; has_kinds(&rt, b"intx int _int RWStructuredBuffers", &names)?);
    let marks = [42, 12, 41, 26, 11, 30, 28, 15].map(TokenKind::Mark);
    assert!(rt; has_kinds(&rt, b"+++ >>==== <<<= /", &marks)?);
    Ok(())
}

#[test]
fn reads_numbers(rt: HostRuntime) -> Result<(), Fail> {
    let numbers: [(&[u8], u32, bool); 9] = [
        (b"0", 0, false),
        (b"00", 0, false),
        (b"0u", 0, true),
        (b"1U", 1, true),
        (b"0017u", 15, true),
        (b"4294967295", 4294967295, false),
        (b"037777777777", 4294967295, false),
        (b"0xfF", 255, false),
        (b"0X0000000000FFFFFFFFu", 4294967295, true),
    ];
    for (text, value, unsigned) in numbers {
        assert!(rt;
            has_kinds(&rt, text, &[number(value, unsigned)])?,
            "{value}"
        );
    }
    assert!(rt;
        has_kinds(
            &rt,
            b"1.5",
            &[number(1, false), TokenKind::Mark(8), number(5, false)]
        )?
    );
    Ok(())
}

#[test]
fn refuses_bad_bytes_and_large_numbers_at_their_places(rt: HostRuntime) {
    let bad: [(&[u8], u32, u32); 20] = [
        (b"08", 1, 1),
        (b"0x", 1, 1),
        (b"0xu", 1, 1),
        (b"0xg", 1, 1),
        (b"0b1", 1, 1),
        (b"1a", 1, 1),
        (b"1uu", 1, 1),
        (b"1_0", 1, 1),
        (b"void f() { /* }", 1, 12),
        (b" /*/", 1, 2),
        (b"/**/ /*\n*", 1, 6),
        (b"a\n  $", 2, 3),
        (b"\r\n\t@", 2, 2),
        (b"// a\n#", 2, 1),
        (b"/*\n\n*/ \"", 3, 4),
        (b"\0", 1, 1),
        (b"a \xC3\xA9", 1, 3),
        (b"\xEF\xBB", 1, 1),
        (b"\xEF\xBB\xBF\xEF\xBB\xBF", 1, 4),
        (b"\n\xEF\xBB\xBF", 2, 1),
    ];
    for (text, line, column) in bad {
        assert_eq!(rt;
            fault(&rt, text),
            Some(LexFault::BadByte(place(line, column))),
            "{text:?}"
        );
    }
    let large: [(&[u8], u32, u32); 4] = [
        (b"4294967296", 1, 1),
        (b"x 0x100000000u", 1, 3),
        (b"\n040000000000", 2, 1),
        (b"99999999999999999999999999999999999999999 08", 1, 1),
    ];
    for (text, line, column) in large {
        assert_eq!(rt;
            fault(&rt, text),
            Some(LexFault::NumberTooLarge(place(line, column))),
            "{text:?}"
        );
    }
}

#[test]
fn tells_where_each_token_stands(rt: HostRuntime) -> Result<(), Fail> {
    let text = b"\xEF\xBB\xBFab\r\n\tc//x\0\xFF\n/*\n**/d";
    let tokens = lex(rt.alloc(), text)?;
    let expected: [(&[u8], usize, Place); 3] = [
        (b"ab", 3, place(1, 4)),
        (b"c", 8, place(2, 2)),
        (b"d", 21, place(4, 4)),
    ];
    assert_eq!(rt; tokens.list.len(), 3);
    for (token, (bytes, start, at)) in tokens.list.as_slice().iter().zip(expected) {
        assert_eq!(rt; token.text, bytes);
        assert_eq!(rt; token.start, start);
        assert_eq!(rt; token.place, at);
    }
    assert_eq!(rt; tokens.end, place(4, 5));
    assert_eq!(rt; lex(rt.alloc(), b"")?.end, place(1, 1));
    assert_eq!(rt; lex(rt.alloc(), b" \n")?.end, place(2, 1));
    Ok(())
}

#[test]
fn reads_at_most_262144_tokens(rt: HostRuntime) -> Result<(), Fail> {
    let endings: [(&[u8], Option<LexFault>); 5] = [
        (b" // no more", None),
        (b"x", Some(LexFault::TooManyTokens)),
        (b"4294967296", Some(LexFault::TooManyTokens)),
        (b"08", Some(LexFault::BadByte(place(1, 262145)))),
        (b"/*", Some(LexFault::BadByte(place(1, 262145)))),
    ];
    for (ending, expected) in endings {
        let mut text = vec![in rt.alloc(); b';'; 262144]?;
        text.extend_from_slice(ending)?;
        if text.len() < 300000 {
            assert_eq!(rt; fault(&rt, &text), expected, "{ending:?}");
        }
    }
    Ok(())
}

#[test]
fn tells_names_from_other_texts(rt: HostRuntime) {
    for text in [b"a".as_slice(), b"_", b"iff", b"u0", b"A1_b"] {
        assert!(rt; is_name(text));
    }
    for text in [b"".as_slice(), b"if", b"1a", b"a b", b"a-", b"\xc3\xa4"] {
        assert!(rt; !is_name(text));
    }
}

#[test]
fn has_its_laws() {
    laws::at_most_one_token_list();
    laws::fault_has_no_token_list();
    laws::at_most_one_fault();
    laws::forms_are_listed();
}
