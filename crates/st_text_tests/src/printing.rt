//! Trees that are printed, and texts that are read back.

use crate::texts::row_of;
use st_parse::{parse, print};
use st_scan::MethodTree;
use std::alloc::Global;

/// Whether this is printed of a tree.
fn is_printed(alloc: Global, tree: &MethodTree, wanted: &str) -> bool {
    match print(alloc, tree) {
        Ok(printed) => printed.as_slice() == wanted.as_bytes(),
        Err(_) => false,
    }
}

/// Whether this is printed of a text's tree.
fn prints(alloc: Global, text: &str, wanted: &str) -> bool {
    if text.len() > 65_536 {
        return false;
    }
    match parse(alloc, text.as_bytes()) {
        Ok(tree) => is_printed(alloc, &tree, wanted),
        Err(_) => false,
    }
}

/// Texts, and what is printed of their trees, one a line.
const PRINTED: &str = r#"x ^x => x ^ x
count "Done!" | n | n _ 0. [n < 3] whileTrue: [n _ n + 1]. ^n => count | n | n _ 0 . [ n < 3 ] whileTrue: [ n _ n + 1 ] . ^ n
max: a ^self > a ifTrue: [self] ifFalse: [a] => max: a ^ self > a ifTrue: [ self ] ifFalse: [ a ]
inc: b ^[:e | e + 1] value: b => inc: b ^ [ : e | e + 1 ] value: b
foo (-1) abs => foo ( -1 ) abs
foo | | -1 => foo ( -1 )
foo | | ^1 => foo ^ 1
foo | a | -1 abs. a := b _ 16rFF => foo | a | -1 abs . a _ b _ 255
at: a put: b <primitive: 60> | t | ^t => at: a put: b | t | < primitive: 60 > ^ t
+ other ^(a + b) * c - (d * e) => + other ^ a + b * c - ( d * e )
foo ^(a foo: b) bar: (c baz: d) => foo ^ ( a foo: b ) bar: ( c baz: d )
foo (a b; c) d; e: (f g; h) => foo ( a b ; c ) d ; e: ( f g ; h )
foo ^#(a #b c: $d 'e''f' #(1 -2) nil + #+ at:put:) => foo ^ #( #a #b #c: $d 'e''f' #( 1 -2 ) nil #+ #+ #at:put: )
foo ^(a _ b) c => foo ^ ( a _ b ) c
foo ^(a b) c => foo ^ a b c
foo [:x :y | ]. [] value. [-1. ^2] => foo [ : x : y | ] . [ ] value . [ -1 . ^ 2 ]
foo ^(a + b) c: (a + b) d: (a c: b) => foo ^ a + b c: a + b d: ( a c: b )
foo a + (b _ c); d => foo a + ( b _ c ) ; d
foo #a:b: foo. -0 => foo #a:b: foo . -0
"#;

/// What is printed is read back, and the tree that it has is printed so too.
#[test]
fn trees_are_printed_and_read_back(rt: HostRuntime) {
    for row in PRINTED.lines() {
        let (text, wanted) = row_of(row);
        assert!(rt;
            prints(rt.alloc(), text, wanted) && prints(rt.alloc(), wanted, wanted),
            "{row}"
        );
    }
}
