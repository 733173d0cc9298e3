//! A source that breaks each typing rule, and the source mended.

use crate::run::{Run, assert_refused, compile_run};
use base_core::Bytes;
use dxil_driver::Status;
use std::process::Abort;
use std::test::Fail;

/// A source, the line that it is refused with, and the source mended.
#[derive(Clone, Copy)]
struct Row {
    broken: &'static [u8],
    line: &'static [u8],
    mended: &'static [u8],
}

/// For each rule one row, in their order.
const ROWS: [Row; 42] = [
    // 1. A global name is declared once
    Row {
        broken: b"groupshared int g;\ngroupshared int g;\n[numthreads(1,1,1)] void main() {}",
        line: b"2:17: rule 1\n",
        mended: b"groupshared int g;\ngroupshared int h;\n[numthreads(1,1,1)] void main() {}",
    },
    // 2. A local name is declared once in a block
    Row {
        broken: b"[numthreads(1,1,1)]\nvoid main() {\n  uint a;\n  uint a;\n}",
        line: b"4:8: rule 2\n",
        mended: b"[numthreads(1,1,1)]\nvoid main() {\n  uint a;\n  { uint a; }\n}",
    },
    // 3. A used name is declared before it
    Row {
        broken: b"[numthreads(1,1,1)]\nvoid main() {\n  uint x = x + 1;\n}",
        line: b"3:12: rule 3\n",
        mended: b"[numthreads(1,1,1)]\nvoid main() {\n  uint x = 1;\n  x = x + 1;\n}",
    },
    // 4. A name is used as what it is declared as
    Row {
        broken: b"RWByteAddressBuffer dst : register(u0);\n[numthreads(1,1,1)]\nvoid main() {\n  uint n = dst;\n}",
        line: b"4:12: rule 4\n",
        mended: b"RWByteAddressBuffer dst : register(u0);\n[numthreads(1,1,1)]\nvoid main() {\n  uint n = dst.Load(0);\n}",
    },
    // 5. The members of a struct have different names
    Row {
        broken: b"struct S { uint a; int a; };\n[numthreads(1,1,1)] void main() {}",
        line: b"1:24: rule 5\n",
        mended: b"struct S { uint a; int b; };\n[numthreads(1,1,1)] void main() {}",
    },
    // 6. An array length is a constant number from 1 to 65536
    Row {
        broken: b"[numthreads(1,1,1)]\nvoid main() {\n  uint n = 4;\n  uint a[n];\n}",
        line: b"4:10: rule 6\n",
        mended: b"static const uint N = 4;\n[numthreads(1,1,1)]\nvoid main() {\n  uint a[N * 2];\n}",
    },
    // 7. An element of a structured buffer has at most 512 words
    Row {
        broken: b"struct S { uint a[513]; };\nStructuredBuffer<S> b;\n[numthreads(1,1,1)] void main() {}",
        line: b"2:18: rule 7\n",
        mended: b"struct S { uint a[512]; };\nStructuredBuffer<S> b;\n[numthreads(1,1,1)] void main() {}",
    },
    // 8. A register is `t` or `u` and a number
    Row {
        broken: b"RWByteAddressBuffer b : register(t0);\n[numthreads(1,1,1)] void main() {}",
        line: b"1:34: rule 8\n",
        mended: b"RWByteAddressBuffer b : register(u0, space1);\n[numthreads(1,1,1)] void main() {}",
    },
    // 9. The initialiser of a constant holds constant numbers
    Row {
        broken: b"static const uint2 A = { 1, 4 / 2 };\n[numthreads(1,1,1)] void main() {}",
        line: b"1:24: rule 9\n",
        mended: b"static const int2 A = { 1, -(1 + 1) };\n[numthreads(1,1,1)] void main() {}",
    },
    // 10. An initialiser in braces has a scalar for each word
    Row {
        broken: b"[numthreads(1,1,1)]\nvoid main() {\n  uint a[2][2] = { { 1, 2 }, { 3 } };\n}",
        line: b"3:18: rule 10\n",
        mended: b"[numthreads(1,1,1)]\nvoid main() {\n  uint a[2][2] = { { 1, 2 }, { 3, 4 } };\n}",
    },
    // 11. Two functions of one name have different parameter types
    Row {
        broken: b"void f(int a) {}\nint f(int b) { return b; }\n[numthreads(1,1,1)] void main() {}",
        line: b"2:5: rule 11\n",
        mended: b"void f(int a) {}\nint f(uint b) { return b; }\n[numthreads(1,1,1)] void main() {}",
    },
    // 12. No function has the name of an intrinsic function
    Row {
        broken: b"uint abs(uint x) { return x; }\n[numthreads(1,1,1)] void main() {}",
        line: b"1:6: rule 12\n",
        mended: b"uint absolute(uint x) { return x; }\n[numthreads(1,1,1)] void main() {}",
    },
    // 13. One function has the entry's name
    Row {
        broken: b"[numthreads(1,1,1)] void other() {}\n",
        line: b"2:1: rule 13\n",
        mended: b"[numthreads(1,1,1)] void main() {}",
    },
    // 14. The entry has one `numthreads`
    Row {
        broken: b"void main() {}",
        line: b"1:6: rule 14\n",
        mended: b"[numthreads(1,1,1)] void main() {}",
    },
    // 15. `numthreads` has three constant numbers
    Row {
        broken: b"[numthreads(32,33,1)] void main() {}",
        line: b"1:2: rule 15\n",
        mended: b"[numthreads(32,32,1)] void main() {}",
    },
    // 16. The entry returns nothing
    Row {
        broken: b"[numthreads(1,1,1)] uint main() { return 1; }",
        line: b"1:21: rule 16\n",
        mended: b"[numthreads(1,1,1)] void main() {}",
    },
    // 17. A parameter of the entry is `in` and has a semantic
    Row {
        broken: b"[numthreads(1,1,1)] void main(uint3 id) {}",
        line: b"1:37: rule 17\n",
        mended: b"[numthreads(1,1,1)] void main(uint3 id : SV_DispatchThreadID) {}",
    },
    // 18. The entry isn't called
    Row {
        broken: b"[numthreads(1,1,1)] void main() { main(); }",
        line: b"1:35: rule 18\n",
        mended: b"void work() {}\n[numthreads(1,1,1)] void main() { work(); }",
    },
    // 19. `break` and `continue` stand in a loop
    Row {
        broken: b"[numthreads(1,1,1)]\nvoid main() {\n  if (true) break;\n}",
        line: b"3:13: rule 19\n",
        mended: b"[numthreads(1,1,1)]\nvoid main() {\n  while (true) break;\n}",
    },
    // 20. `return` has a value where the function returns one
    Row {
        broken: b"void f() { return 1; }\n[numthreads(1,1,1)] void main() {}",
        line: b"1:12: rule 20\n",
        mended: b"uint f() { return 1; }\n[numthreads(1,1,1)] void main() {}",
    },
    // 21. A function with a result ends with `return`
    Row {
        broken: b"uint f(uint a) { if (a > 1) return a; }\n[numthreads(1,1,1)] void main() {}",
        line: b"1:6: rule 21\n",
        mended: b"uint f(uint a) { if (a > 1) return a; else return 1; }\n[numthreads(1,1,1)] void main() {}",
    },
    // 22. A condition is a scalar
    Row {
        broken: b"[numthreads(1,1,1)]\nvoid main() {\n  uint2 v;\n  if (v > 1) v = 1;\n}",
        line: b"4:7: rule 22\n",
        mended: b"[numthreads(1,1,1)]\nvoid main() {\n  uint2 v;\n  if (all(v > 1)) v = 1;\n}",
    },
    // 23. An attribute is known
    Row {
        broken: b"[numthreads(1,1,1)]\nvoid main() {\n  [loop(2)] while (true) break;\n}",
        line: b"3:3: rule 23\n",
        mended: b"[numthreads(1,1,1)]\nvoid main() {\n  [unroll(2)] while (true) break;\n}",
    },
    // 24. A value converts to the type that is needed
    Row {
        broken: b"[numthreads(1,1,1)]\nvoid main() {\n  uint3 v = uint2(1, 2);\n}",
        line: b"3:13: rule 24\n",
        mended: b"[numthreads(1,1,1)]\nvoid main() {\n  uint3 v = uint3(1, 2, 3);\n  uint2 w = v;\n}",
    },
    // 25. What is written is a place that may be written
    Row {
        broken: b"[numthreads(1,1,1)]\nvoid main() {\n  uint2 v;\n  v.xx = 1;\n}",
        line: b"4:3: rule 25\n",
        mended: b"[numthreads(1,1,1)]\nvoid main() {\n  uint2 v;\n  v.yx = 1;\n}",
    },
    // 26. A struct has the member
    Row {
        broken: b"struct S { uint a; };\n[numthreads(1,1,1)]\nvoid main() {\n  S s;\n  s.b = 1;\n}",
        line: b"5:5: rule 26\n",
        mended: b"struct S { uint a; };\n[numthreads(1,1,1)]\nvoid main() {\n  S s;\n  s.a = 1;\n}",
    },
    // 27. A swizzle has up to four letters
    Row {
        broken: b"[numthreads(1,1,1)]\nvoid main() {\n  uint2 v;\n  v.xz;\n}",
        line: b"4:5: rule 27\n",
        mended: b"[numthreads(1,1,1)]\nvoid main() {\n  uint2 v;\n  v.xyyx;\n  uint u = v.x;\n  u.xx;\n}",
    },
    // 28. An index stands on an array, a vector or a structured buffer
    Row {
        broken: b"[numthreads(1,1,1)]\nvoid main() {\n  uint u;\n  u[0] = 1;\n}",
        line: b"4:5: rule 28\n",
        mended: b"[numthreads(1,1,1)]\nvoid main() {\n  uint u[1];\n  u[0] = 1;\n}",
    },
    // 29. An index is a scalar
    Row {
        broken: b"[numthreads(1,1,1)]\nvoid main() {\n  uint a[2];\n  a[uint2(0, 1)] = 1;\n}",
        line: b"4:5: rule 29\n",
        mended: b"[numthreads(1,1,1)]\nvoid main() {\n  uint a[2];\n  a[uint2(0, 1).y] = 1;\n}",
    },
    // 30. A constant index is below the length
    Row {
        broken: b"[numthreads(1,1,1)]\nvoid main() {\n  uint a[2];\n  a[2] = 1;\n}",
        line: b"4:5: rule 30\n",
        mended: b"[numthreads(1,1,1)]\nvoid main() {\n  uint a[2];\n  a[1] = 1;\n}",
    },
    // 31. An index of a value that isn't a place is a constant number
    Row {
        broken: b"uint2 pair() { return uint2(1, 2); }\n[numthreads(1,1,1)]\nvoid main() {\n  uint i = 0;\n  uint x = pair()[i];\n}",
        line: b"5:19: rule 31\n",
        mended: b"uint2 pair() { return uint2(1, 2); }\n[numthreads(1,1,1)]\nvoid main() {\n  uint i = 0;\n  uint2 p = pair();\n  uint x = p[i] + pair()[1];\n}",
    },
    // 32. An operand is a scalar or a vector
    Row {
        broken: b"struct S { uint a; };\n[numthreads(1,1,1)]\nvoid main() {\n  S s;\n  uint x = s + 1;\n}",
        line: b"5:12: rule 32\n",
        mended: b"struct S { uint a; };\n[numthreads(1,1,1)]\nvoid main() {\n  S s;\n  uint x = s.a + 1;\n}",
    },
    // 33. A constructor has as many components as its type
    Row {
        broken: b"[numthreads(1,1,1)]\nvoid main() {\n  uint3 v = uint3(1, 2);\n}",
        line: b"3:13: rule 33\n",
        mended: b"[numthreads(1,1,1)]\nvoid main() {\n  uint3 v = uint3(1, uint2(2, 3));\n}",
    },
    // 34. A cast is a conversion
    Row {
        broken: b"[numthreads(1,1,1)]\nvoid main() {\n  uint2 v;\n  uint w = ((uint3)v).x;\n}",
        line: b"4:13: rule 34\n",
        mended: b"[numthreads(1,1,1)]\nvoid main() {\n  uint2 v;\n  uint w = ((uint)v).x;\n}",
    },
    // 35. A function fits the arguments of a call
    Row {
        broken: b"void f(uint a) {}\n[numthreads(1,1,1)]\nvoid main() {\n  f(1, 2);\n}",
        line: b"4:3: rule 35\n",
        mended: b"void f(uint a) {}\n[numthreads(1,1,1)]\nvoid main() {\n  f(1);\n}",
    },
    // 36. One function fits a call best
    Row {
        broken: b"void f(int a, uint b) {}\nvoid f(uint a, int b) {}\n[numthreads(1,1,1)]\nvoid main() {\n  f(1, 1);\n}",
        line: b"5:3: rule 36\n",
        mended: b"void f(int a, uint b) {}\nvoid f(uint a, int b) {}\n[numthreads(1,1,1)]\nvoid main() {\n  f(1, 1u);\n}",
    },
    // 37. An `out` or `inout` argument may be written
    Row {
        broken: b"void f(out uint a) { a = 1; }\n[numthreads(1,1,1)]\nvoid main() {\n  f(1u);\n}",
        line: b"4:5: rule 37\n",
        mended: b"void f(out uint a) { a = 1; }\n[numthreads(1,1,1)]\nvoid main() {\n  uint x;\n  f(x);\n}",
    },
    // 38. A function doesn't call itself
    Row {
        broken: b"uint f(uint n) { return f(n - 1); }\n[numthreads(1,1,1)] void main() {}",
        line: b"1:25: rule 38\n",
        mended: b"uint f(int n) { return n; }\nuint f(uint n) { return f(int(n) - 1); }\n[numthreads(1,1,1)] void main() {}",
    },
    // 39. Nothing isn't used as a value
    Row {
        broken: b"void f() {}\n[numthreads(1,1,1)]\nvoid main() {\n  uint x = f();\n}",
        line: b"4:12: rule 39\n",
        mended: b"void f() {}\n[numthreads(1,1,1)]\nvoid main() {\n  f();\n}",
    },
    // 40. The target of an interlocked operation is shared memory
    Row {
        broken: b"[numthreads(1,1,1)]\nvoid main() {\n  uint u;\n  InterlockedAdd(u, 1);\n}",
        line: b"4:18: rule 40\n",
        mended: b"groupshared uint u;\n[numthreads(1,1,1)]\nvoid main() {\n  InterlockedAdd(u, 1);\n}",
    },
    // 41. A buffer has the method, and the arguments fit
    Row {
        broken: b"ByteAddressBuffer b : register(t0);\n[numthreads(1,1,1)]\nvoid main() {\n  b.Store(0, 1);\n}",
        line: b"4:5: rule 41\n",
        mended: b"RWByteAddressBuffer b : register(u0);\n[numthreads(1,1,1)]\nvoid main() {\n  b.Store(0, 1);\n}",
    },
    // 42. A declared type has at most 65536 words
    Row {
        broken: b"struct S { uint a[65536]; uint b; };\n[numthreads(1,1,1)] void main() {}",
        line: b"1:8: rule 42\n",
        mended: b"struct S { uint a[65535]; uint b; };\n[numthreads(1,1,1)] void main() {}",
    },
];

/// Asserts that a source had a program, whether it is built by now or not.
fn assert_accepted(rt: &impl Abort, run: &Run) {
    if run.status != Status::Done {
        assert_refused(rt, run, Status::Refused, b"error: not built\n");
    }
}

#[test]
fn each_rule_is_named_at_its_place(rt: HostRuntime) -> Result<(), Fail> {
    for row in ROWS {
        let run = compile_run(&rt, Bytes::from_slice(rt.alloc(), row.broken)?)?;
        assert_refused(&rt, &run, Status::Refused, row.line);
    }
    Ok(())
}

#[test]
fn a_mended_source_breaks_no_rule(rt: HostRuntime) -> Result<(), Fail> {
    for row in ROWS {
        let run = compile_run(&rt, Bytes::from_slice(rt.alloc(), row.mended)?)?;
        assert_accepted(&rt, &run);
    }
    Ok(())
}

/// Sources with the line that each is refused with.
const REFUSED: [(&[u8], &[u8]); 11] = [
    // the first of the rules that are broken, and of several at one token the least
    (b"groupshared int g; groupshared int g;", b"1:36: rule 1\n"),
    (
        b"[numthreads(1,1,1)] void main() { break; }",
        b"1:35: rule 19\n",
    ),
    (b"[numthreads(1,1,1)] void main() { x; }", b"1:35: rule 3\n"),
    // a constant's name is known behind its initialiser
    (b"static const uint Z = Z;", b"1:23: rule 3\n"),
    // the threads of a group
    (b"[numthreads(1,1,65)] void main() {}", b"1:2: rule 15\n"),
    (b"[numthreads(32,33,1)] void main() {}", b"1:2: rule 15\n"),
    // an ambiguous call
    (
        b"void f(int a, uint b) {}\nvoid f(uint a, int b) {}\n[numthreads(1,1,1)]\nvoid main() { f(1, 1); }",
        b"4:15: rule 36\n",
    ),
    // a number up to 2147483647 is an int, and one above it a uint
    (
        b"void f(int a, uint b) {}\nvoid f(uint a, int b) {}\n[numthreads(1,1,1)]\nvoid main() { f(2147483647, 2147483647); }",
        b"4:15: rule 36\n",
    ),
    (
        b"void f(int a, uint b) {}\nvoid f(uint a, int b) {}\n[numthreads(1,1,1)]\nvoid main() { f(2147483648, 4294967295); }",
        b"4:15: rule 36\n",
    ),
    (b"4294967296", b"1:1: number too large\n"),
    // no entry
    (b"[numthreads(1,1,1)] void CSMain() {}", b"1:37: rule 13\n"),
];

#[test]
fn the_first_broken_rule_is_named(rt: HostRuntime) -> Result<(), Fail> {
    for (text, line) in REFUSED {
        let run = compile_run(&rt, Bytes::from_slice(rt.alloc(), text)?)?;
        assert_refused(&rt, &run, Status::Refused, line);
    }
    Ok(())
}

/// Sources that break no rule.
const ACCEPTED: [&[u8]; 5] = [
    // the threads of a group
    b"[numthreads(1024,1,1)] void main() {}",
    b"[numthreads(32,32,1)] void main() {}",
    b"[numthreads(1,1,64)] void main() {}",
    // a number up to 2147483647 is an int, and one above it a uint
    b"void f(int a, uint b) {}\nvoid f(uint a, int b) {}\n[numthreads(1,1,1)]\nvoid main() { f(2147483647, 2147483648); }",
    b"void f(int a, uint b) {}\nvoid f(uint a, int b) {}\n[numthreads(1,1,1)]\nvoid main() { f(4294967295, 7); }",
];

#[test]
fn sources_that_break_no_rule_are_accepted(rt: HostRuntime) -> Result<(), Fail> {
    for text in ACCEPTED {
        let run = compile_run(&rt, Bytes::from_slice(rt.alloc(), text)?)?;
        assert_accepted(&rt, &run);
    }
    Ok(())
}
