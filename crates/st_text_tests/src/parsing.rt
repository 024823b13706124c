//! Texts that are parsed: what they mean, or their first fault.

use crate::texts::{are_numbers, is_fault, is_signed, row_of, text_of};
use st_parse::parse;
use st_scan::{MethodTree, Signed, SyntaxFault};
use std::alloc::Global;

/// Whether this is a primitive's number, with the bracket behind it; or nothing, where there is none.
fn is_primitive(text: &str, number: Option<Signed>) -> bool {
    match (text.strip_suffix(">"), number) {
        (Some(text), Some(number)) => is_signed(text, number),
        (None, None) => text.is_empty(),
        _ => false,
    }
}

/// Whether a tree has this selector, so many arguments, temporaries and statements, and this primitive.
fn is_tree(text: &str, tree: &MethodTree) -> bool {
    let (front, primitive) = text.split_once(" <").unwrap_or((text, ""));
    let (selector, counts) = front.split_once(' ').unwrap_or((front, ""));
    let lengths = [
        tree.arguments.len(),
        tree.temporaries.len(),
        tree.body.len(),
    ];
    selector.as_bytes() == tree.selector.as_slice()
        && are_numbers(counts, &lengths)
        && is_primitive(primitive, tree.primitive)
}

/// Whether a text means this, or has this fault.
fn means(alloc: Global, text: &[u8], wanted: &str) -> bool {
    if text.len() > 65_536 {
        return false;
    }
    match parse(alloc, text) {
        Ok(tree) => is_tree(wanted, &tree),
        Err(SyntaxFault::At { place, cause }) => is_fault(wanted, "syntax", place, cause),
        Err(SyntaxFault::OutOfMemory) => false,
    }
}

/// Texts, and what they mean or their first fault, one a line; at last brackets as deep as they may be, and one more, and texts of
/// 65,536 bytes at most.
const ROWS: &str = r#" => syntax 1 3
foo ^1 ) => syntax 8 7
foo ^(1 => syntax 8 3
foo "x => syntax 5 2
foo ^3.5 => syntax 6 5
foo ^37r1 => syntax 6 4
foo ^340282366920938463463374607431768211456 => syntax 6 4
foo | a a | => foo 0 2 0
a: b b _ 1 => a: 1 0 1
foo ^-16385 => foo 0 0 1
foo <primitive: 0> => foo 0 0 0 <0>
foo ^#a => foo 0 0 1
foo ^1 => foo 0 0 1
foo ^zork => foo 0 0 1
foo super _ 1 => foo 0 0 1
foo ^super => syntax 11 3
foo x foo: super bar: 1 => syntax 18 3
foo 1 + super - 2 => syntax 15 3
foo super => syntax 10 3
foo (super) => syntax 11 3
foo super; x => syntax 10 3
foo super x => foo 0 0 1
foo super + 1 => foo 0 0 1
foo super x: 1 => foo 0 0 1
foo x + super y => foo 0 0 1
foo x + (super + y) => foo 0 0 1
foo x a: super + 1 => foo 0 0 1
foo x a: super y + 1 b: 2 => foo 0 0 1
super super super => super 0 0 1
super: super | super | [:super | super super] => super: 1 1 1
foo . => syntax 5 7
foo [.] => syntax 6 3
foo x. => foo 0 0 1
foo x. . => syntax 8 7
foo x. y => foo 0 0 2
foo x. ^y => foo 0 0 2
foo x. ^y. => foo 0 0 2
foo ^x. . => syntax 9 7
foo ^x. y => syntax 9 7
foo ^x. ^y => syntax 9 7
foo [^x. y] => syntax 10 3
foo ^ => syntax 6 3
foo ^^x => syntax 6 3
foo | | ^1 => foo 0 0 1
foo | a | | b | ^1 => syntax 11 7
foo | a => syntax 8 3
foo | 1 | => syntax 7 3
foo | a: | => syntax 7 3
foo (x y); z => syntax 10 7
foo (x y) z; z => foo 0 0 1
foo x; z => syntax 6 7
foo 1; z => syntax 6 7
foo x y; z => foo 0 0 1
foo x + y; z => foo 0 0 1
foo x a: y; z; + 1; b: 2 c: 3; d => foo 0 0 1
foo x y; => syntax 9 3
foo x y;; z => syntax 9 3
foo x y; (z) => syntax 10 3
foo x y; z _ 1 => syntax 12 7
foo ^(1 3.5) => syntax 9 3
foo ^1 3.5 => syntax 8 5
foo ^1 37r1 => syntax 8 4
foo ^1 ) "x => syntax 8 7
foo ^1 {  => syntax 8 1
foo ^(1 { => syntax 9 1
foo: 3.5 => syntax 6 3
foo -1 => syntax 5 7
foo ^16r1e5 => syntax 6 5
foo ^16r1F.5 => syntax 6 5
foo ^1r1 => syntax 6 4
foo ^2r3 => syntax 6 4
foo ^37r1.5 => syntax 6 4
foo ^# a => syntax 6 1
foo ^##a => syntax 6 1
foo ^$ => syntax 6 1
foo ^'a => syntax 6 2
foo ^#(1 [ 2) => syntax 10 3
foo [:a | | b] => syntax 11 3
foo: 1 => syntax 6 3
1 => syntax 1 3
foo <primitive: x> => syntax 17 3
foo <primitive: -20000> => foo 0 0 0 <-20000>
foo <primitive: 256> => foo 0 0 0 <256>
foo <primitive: 1 => syntax 18 3
foo <primitive 1> => syntax 6 3
foo <prim: 1> => syntax 6 3
foo <primitive:> => syntax 16 3
foo primitive: 1 => syntax 5 7
primitive: primitive: ^primitive: => syntax 12 3
primitive: primitive ^primitive => primitive: 1 0 1
foo | a | <primitive: 1> ^a => foo 0 1 1 <1>
foo <primitive: 1> | a | ^a => foo 0 1 1 <1>
foo <primitive: 1> <primitive: 2> => syntax 20 7
foo | a | <primitive: 1> | b | => syntax 26 7
foo x <primitive: 1> => syntax 8 3
foo ^x < y => foo 0 0 1
foo ^x <primitive: 1> 2 => syntax 9 3
foo nil _ 1 => foo 0 0 1
foo [:x | x _ 1] => foo 0 0 1
foo: a [:a | a] => foo: 1 0 1
foo [:q | q]. [:q | q]. ^q => foo 0 0 3
foo ^#(1 -16385) => foo 0 0 1
foo: x ^x => foo: 1 0 1
foo: => syntax 5 3
foo:bar: => syntax 5 3
foo:bar => foo: 1 0 0
+ x ^x => + 1 0 1
| x | a | ^a => | 1 1 1
+ => syntax 2 3
++ 1 => syntax 4 3
at: a put: b ^b => at:put: 2 0 1
at: a at: => syntax 10 3
at:a put:b => at:put: 2 0 0
foo ^-0 => foo 0 0 1
foo ^16rg => foo 0 0 1
foo ^3E5 => foo 0 0 1
foo ^3e- 5 => foo 0 0 1
foo ^#a:b => foo 0 0 1
foo ^x|-1 => foo 0 0 1
foo ^[:a|-1] => foo 0 0 1
foo [true] whileTrue: [^1] => foo 0 0 1
foo [:a] => foo 0 0 1
foo [:a :b] => foo 0 0 1
foo [:a | ] => foo 0 0 1
foo [:a :b | a. b.] => foo 0 0 1
foo [:a b] => syntax 9 3
foo [: | a] => syntax 8 3
foo [a | b] => foo 0 0 1
foo [| a] => syntax 6 3
foo [] => foo 0 0 1
foo [ => syntax 6 3
foo [x => syntax 7 3
foo [x) => syntax 7 3
foo (x] => syntax 7 3
foo () => syntax 6 3
foo (x. y) => syntax 7 3
foo (^x) => syntax 6 3
foo (a _ b) c _ 1 => syntax 15 7
foo a _ b := c _ d e => foo 0 0 1
foo a _ => syntax 8 3
foo a b _ 1 => syntax 9 7
foo 1 _ 2 => syntax 7 7
foo a: _ 1 => syntax 5 7
foo x a: 1 b => foo 0 0 1
foo x a: y b: z c d + e => foo 0 0 1
foo x a: => syntax 9 3
foo x a: b: 1 => syntax 10 3
foo x a: y _ 1 => syntax 12 7
foo x + => syntax 8 3
foo x + + y => syntax 9 3
foo x + y a: z + w b: 2 => foo 0 0 1
foo x y z => foo 0 0 1
foo x 1 => syntax 7 7
foo x (y) => syntax 7 7
foo #(a #b c: d:e: #f:g: + #+ | nil true false $a 'b' 1 -1 (a (b)) #(c)) => foo 0 0 1
foo #() => foo 0 0 1
foo #( => syntax 7 3
foo #(a => syntax 8 3
foo #(a ] => syntax 9 3
foo #(^) => syntax 7 3
foo #(a . b) => syntax 9 3
foo #(a _ b) => syntax 9 3
foo #(a; b) => syntax 8 3
foo #(:a) => syntax 7 3
foo (a) => foo 0 0 1
foo #(a) b => foo 0 0 1
foo #a b: #(1 2) => foo 0 0 1
foo $a + 'b' => foo 0 0 1
foo "a" x "b" y "c" => foo 0 0 1
"only" => syntax 7 3
foo => foo 0 0 0
foo x => foo 0 0 1
foo ^2 => foo 0 0 1
x ^x => x 0 0 1
count "Done!!" | n | n _ 0. [n < 3] whileTrue: [n _ n + 1]. ^n => count 0 1 3
max: a ^self > a ifTrue: [self] ifFalse: [a] => max: 1 0 1
inc: b ^[:e | e + 1] value: b => inc: 1 0 1
at: a put: b | c d | <primitive: 60> x _ y := a foo: b; + c; d. ^[:e | e]. => at:put: 2 2 2 <60>
at: a put: b <primitive: 60> | c d | ^b. => at:put: 2 2 1 <60>
- x | | <primitive: 0> => - 1 0 0 <0>
foo x a; + b c; d: e + f g: h i => foo 0 0 1
foo ^[:a :b | a] value: 1 value: 2 => foo 0 0 1
foo ^16rFF - 2r101 => foo 0 0 1
foo ^#a:b: => foo 0 0 1
foo ^#+ => foo 0 0 1
foo ^'it''s' => foo 0 0 1
foo ^$' => foo 0 0 1
foo ^~(*201 => syntax 206 6
foo ^~(*200 => syntax 206 3
foo ^~(*200~1 => syntax 207 3
foo ^~(*200~1 ( => syntax 208 3
foo ^~[*200 => syntax 206 3
foo ^~[*201 => syntax 206 6
foo ^~#(*200 => syntax 406 3
foo ^~#(*201 => syntax 406 6
foo ^~(*200~#( => syntax 206 6
foo ^~(*200~1~)*200 => foo 0 0 1
foo ~(*200~1~)*200~.~(*200~1~)*200 => foo 0 0 2
foo ^x~ y*32760 => foo 0 0 1
foo ^x~+y*32760 => foo 0 0 1
foo x~ a:y*16380 => foo 0 0 1
foo x y~;z*32760 => foo 0 0 1
foo ~a_*32760~1 => foo 0 0 1
foo ~x.*32760 => foo 0 0 32760
foo #(~1 *32760~) => foo 0 0 1
"#;

#[test]
fn texts_have_their_trees_and_faults(rt: HostRuntime) {
    for row in ROWS.lines() {
        let (pieces, wanted) = row_of(row);
        let text = text_of(rt.alloc(), pieces).expect(&rt, "memory");
        assert!(rt; means(rt.alloc(), &text, wanted), "{row}");
    }
}
