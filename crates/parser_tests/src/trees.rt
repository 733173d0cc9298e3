//! Texts whose trees and faults are known by hand.

ghost use Rattle.std.specs.Prelude.{◌^◌, ◌<◌, length};

use hl_lexer::lex;
use hl_parser::{ParseFault, Tree, laws, parse};
use std::test::Fail;

/// The fault of a text.
fn fault(rt: &HostRuntime, text: &[u8]) -> Result<Option<ParseFault>, Fail>
    requires { length text.now < 2 ^ 31 }
{
    let tokens = lex(rt.alloc(), text)?;
    Ok(parse(rt.alloc(), &tokens).err())
}

/// The tree of a text.
fn tree(rt: &HostRuntime, text: &[u8]) -> Result<Tree, Fail>
    requires { length text.now < 2 ^ 31 }
{
    let tokens = lex(rt.alloc(), text)?;
    Ok(parse(rt.alloc(), &tokens)?)
}

/// The first statement of a function that is the first item.
fn statement(tree: &Tree) -> Option<&Tree> {
    let Tree::Program { items, .. } = tree else {
        return None;
    };
    let Tree::Item { item, .. } = items.as_slice().first()? else {
        return None;
    };
    let Tree::Function { block, .. } = item.get() else {
        return None;
    };
    let Tree::Block { statements, .. } = block.get() else {
        return None;
    };
    let Tree::Stmt { part, .. } = statements.as_slice().first()? else {
        return None;
    };
    Some(part.as_ref()?.get())
}

#[test]
fn refuses_the_first_token_that_cannot_stand_there(rt: HostRuntime) -> Result<(), Fail> {
    let texts: [(&[u8], usize); 12] = [
        (b"", 0),
        (b"[numthreads(1, 1, 1)] void main() { a b c }", 17),
        (b"void f(", 3),
        (b"void f( { }", 3),
        (b"void f() {", 5),
        (b"void f() { else }", 5),
        (b"void f() { (a) b; }", 8),
        (b"void f() { (int) b c; }", 9),
        (b"void f() { a.b[2](3); }", 11),
        (b"void f() { int a = { 1, 2, , }; }", 13),
        (b"struct s { }; void f() { }", 3),
        (b"[unroll] [loop] x", 7),
    ];
    for (text, at) in texts {
        assert_eq!(rt;
            fault(&rt, text)?,
            Some(ParseFault::Syntax { at }),
            "{text:?}"
        );
    }
    Ok(())
}

#[test]
fn reads_every_form(rt: HostRuntime) -> Result<(), Fail> {
    let texts: [&[u8]; 8] = [
        b"struct s { int a, b[2][3]; s c; }; groupshared uint3 t[4], u;",
        b"ByteAddressBuffer a; RWStructuredBuffer<s> b : register(u0, space1);",
        b"static const int2 a[2] = { { 1, 2, }, int2(3, 4) };",
        b"s f(const in int a : A, out s b, int c[2]) { return; return a; }",
        b"[a] [b(1, 2)] void f() { { ; } break; continue; const int a = 1, b; s c; int(2); }",
        b"void f() { [loop] for (int i = 0; i < 4; i++) ; for (;;) { } for (i = 0; ; ) --i; }",
        b"void f() { [branch] if (a) if (b) ; else ; while (a) ; do ; while (a); }",
        b"void f() { a = b += c ? d || e && f : g | h ^ i & j == k < l << m + n * -!~(int)o.p[q].r(s)++; }",
    ];
    for text in texts {
        assert_eq!(rt; fault(&rt, text)?, None, "{text:?}");
    }
    Ok(())
}

#[test]
fn joins_operators_to_the_left_and_an_else_to_the_nearest_if(rt: HostRuntime) -> Result<(), Fail> {
    let difference = tree(&rt, b"void f() { a - b - c; }")?;
    assert!(rt;
        matches!(
            statement(&difference),
            Some(Tree::Sum { at: 5, mark: 8, .. })
        )
    );
    let product = tree(&rt, b"void f() { a - b * c; }")?;
    assert!(rt; matches!(statement(&product), Some(Tree::Sum { at: 5, mark: 6, .. })));
    let assignment = tree(&rt, b"void f() { a = b = c; }")?;
    assert!(rt;
        matches!(
            statement(&assignment),
            Some(Tree::Expr { at: 5, mark: 6, .. })
        )
    );
    let cast = tree(&rt, b"void f() { (int) a; }")?;
    assert!(rt;
        matches!(
            statement(&cast),
            Some(Tree::Unary {
                at: 5,
                cast: Some(_),
                ..
            })
        )
    );
    let outer = tree(&rt, b"void f() { if (a) if (b) ; else ; }")?;
    assert!(rt;
        matches!(
            statement(&outer),
            Some(Tree::If {
                at: 5,
                alternative: None,
                ..
            })
        )
    );
    Ok(())
}

#[test]
fn keeps_at_most_64_levels_and_reads_on(rt: HostRuntime) -> Result<(), Fail> {
    let open = vec![in rt.alloc(); b'('; 100000]?;
    let close = vec![in rt.alloc(); b')'; 100000]?;
    let rows: [(usize, &[u8], Option<ParseFault>); 5] = [
        (62, b";}", None),
        (63, b";}", Some(ParseFault::TooDeep)),
        (63, b";", Some(ParseFault::Syntax { at: 133 })),
        (100000, b";}", Some(ParseFault::TooDeep)),
        (100000, b"a;}", Some(ParseFault::Syntax { at: 200006 })),
    ];
    for (levels, ending, expected) in rows {
        let mut text = vec![in rt.alloc(); b' '; 0]?;
        text.extend_from_slice(b"void f(){")?;
        text.extend_from_slice(open.get(..levels).unwrap_or(b""))?;
        text.extend_from_slice(b"x")?;
        text.extend_from_slice(close.get(..levels).unwrap_or(b""))?;
        text.extend_from_slice(ending)?;
        if text.len() < 300000 {
            assert_eq!(rt; fault(&rt, &text)?, expected, "{levels}");
        }
    }
    Ok(())
}

#[test]
fn counts_each_operator_of_a_chain(rt: HostRuntime) -> Result<(), Fail> {
    for (ones, expected) in [(63, None), (64, Some(ParseFault::TooDeep))] {
        let mut text = vec![in rt.alloc(); b' '; 0]?;
        text.extend_from_slice(b"void f(){1")?;
        for _ in 1..ones {
            text.extend_from_slice(b"+1")?;
        }
        text.extend_from_slice(b";}")?;
        if text.len() < 300000 {
            assert_eq!(rt; fault(&rt, &text)?, expected, "{ones}");
        }
    }
    Ok(())
}

#[test]
fn has_its_law() {
    laws::at_most_one_tree();
}
