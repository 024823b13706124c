//! Texts that are compiled: their code, or the first fault.

use crate::texts::{
    are_numbers, is_fault, is_marked_number, is_number, is_signed, row_of, text_of,
};
use st_code::{CodeFault, Literal, MethodParts, NamedOops, Names, TextList, compile};
use st_model::Oop;
use st_parse::parse;
use st_scan::{MethodTree, Signed, SyntaxFault};
use std::alloc::{AllocError, Global};
use std::collections::BTreeMap;

/// The class's variables x and y.
fn fields(alloc: Global) -> Result<TextList, AllocError> {
    let mut fields = Vec::new(alloc);
    for name in [b'x', b'y'] {
        fields.push([name].to_vec(alloc)?)?;
    }
    Ok(fields)
}

/// The image's one global.
fn shared(alloc: Global) -> Result<NamedOops, AllocError> {
    let mut shared = BTreeMap::new(alloc);
    shared.insert(b"Shared".to_vec(alloc)?, Oop(60))?;
    Ok(shared)
}

/// The names of a class with the variables x and y, in an image with one global.
pub fn names(alloc: Global) -> Result<Names, AllocError> {
    let fields = fields(alloc)?;
    Ok(Names {
        fields,
        shared: shared(alloc)?,
        symbols: true,
    })
}

/// Whether a word is this text after a mark.
fn is_marked(word: &str, mark: u8, text: &[u8]) -> bool {
    match word.as_bytes().split_first() {
        Some((first, rest)) => *first == mark && rest == text,
        None => false,
    }
}

/// Whether a word is this literal. Of an array it says how many members it has.
fn is_literal(word: &str, literal: &Literal) -> bool {
    match literal {
        Literal::Number { minus, size } => is_signed(
            word,
            Signed {
                minus: *minus,
                size: *size,
            },
        ),
        Literal::Character(byte) => is_marked(word, b'$', &[*byte]),
        Literal::Bytes(text) => is_marked(word, b'\'', text),
        Literal::Symbol(text) => is_marked(word, b'#', text),
        Literal::Array(members) => is_marked_number(word, "(", members.len() as u128),
        Literal::Named(association) => is_marked_number(word, "@", u128::from(association.0)),
        Literal::Owner => word == "owner",
    }
}

/// Whether these are the literals, with a blank before each.
fn are_literals(text: &str, literals: &[Literal]) -> bool {
    let mut seen = 0usize;
    for word in text.split(' ').skip(1) {
        match literals.get(seen) {
            Some(literal) if is_literal(word, literal) => seen += 1,
            _ => return false,
        }
    }
    seen == literals.len()
}

/// Whether these are the bytes, with a blank before each.
fn are_bytes(text: &str, bytes: &[u8]) -> bool {
    let mut seen = 0usize;
    for word in text.split(' ').skip(1) {
        match bytes.get(seen) {
            Some(byte) if is_number(word, u128::from(*byte)) => seen += 1,
            _ => return false,
        }
    }
    seen == bytes.len()
}

/// Whether this is the code: header, literals, a colon, bytes; or the header, how many literals and how many bytes.
fn is_code(text: &str, parts: &MethodParts) -> bool {
    let header = parts.header;
    match text.rsplit_once(':') {
        Some((front, bytes)) => {
            let number = front.split(' ').next().unwrap_or("");
            is_number(number, u128::from(header))
                && are_literals(front, &parts.literals)
                && are_bytes(bytes, &parts.bytes)
        }
        None => are_numbers(
            text,
            &[usize::from(header), parts.literals.len(), parts.bytes.len()],
        ),
    }
}

/// Whether a tree has this code, or this fault.
fn has_code(alloc: Global, tree: &MethodTree, names: &Names, wanted: &str) -> bool {
    match compile(alloc, tree, names) {
        Ok(parts) => is_code(wanted, &parts),
        Err(CodeFault::At { place, cause }) => is_fault(wanted, "code", place, cause),
        Err(CodeFault::OutOfMemory) => false,
    }
}

/// Whether a text has this code, or this fault.
fn compiles(alloc: Global, text: &[u8], names: &Names, wanted: &str) -> bool {
    if text.len() > 65_536 {
        return false;
    }
    match parse(alloc, text) {
        Ok(tree) => has_code(alloc, &tree, names, wanted),
        Err(SyntaxFault::At { place, cause }) => is_fault(wanted, "syntax", place, cause),
        Err(SyntaxFault::OutOfMemory) => false,
    }
}

/// Texts, and the header, the literals and the bytes, or the first fault, one a line; at last methods within each bound, past it,
/// and one as deep as its text, with the header, how many literals and how many bytes.
const ROWS: &str = "x ^x => 49153: 0 124
count | n | n _ 0. [n < 3] whileTrue: [n _ n + 1]. ^n => 259 3: 117 104 16 32 178 159 16 118 176 129 64 135 163 244 115 135 16 124
max: a ^self > a ifTrue: [self] ifFalse: [a] => 8449: 112 16 179 153 112 144 16 124
inc: b ^[:e | e + 1] value: b => 8705: 137 118 200 164 5 105 17 118 176 125 16 202 124
foo ^1 => 1: 118 124
foo ^2 => 1: 119 124
foo ^zork => code 6 1
foo ^1 ) => syntax 8 7
 => syntax 1 3
foo ^(1 => syntax 8 3
foo \"x => syntax 5 2
foo ^3.5 => syntax 6 5
foo ^37r1 => syntax 6 4
foo ^340282366920938463463374607431768211456 => syntax 6 4
foo | a a | => code 9 2
foo | a a | ^zork => code 9 2
a: b b _ 1 => code 6 3
foo ^-16385 => code 6 9
foo <primitive: 0> => code 0 8
foo => 40961: 120
foo thisContext => 1: 137 135 120
foo ^super foo => 5 #foo owner: 112 133 0 124
foo ^y bar; baz => 5 #bar #baz: 1 136 208 135 209 124
foo ^#(1 a) => 3 (2: 32 124
foo ^'ab' => 3 'ab: 32 124
foo ^#ab => 3 #ab: 32 124
foo ^$a => 3 $a: 32 124
foo ^-16384 => 3 -16384: 32 124
foo ^'a' , 'a' , #b , #b => 9 'a 'a #, #b: 32 33 226 35 226 35 226 124
foo ^x ifTrue: [y] => 1: 0 153 1 144 115 124
foo ^x ifFalse: [y] => 1: 0 168 2 1 144 115 124
foo ^x ifTrue: [1] ifFalse: [2] => 1: 0 153 118 144 119 124
foo ^x ifFalse: [1000] ifTrue: [2000] => 5 2000 1000: 0 153 32 144 33 124
foo x ifTrue: [y foo] => 3 #foo: 0 154 1 208 144 115 135 120
foo ^x and: [y] => 1: 0 153 1 144 114 124
foo ^x or: [y] => 1: 0 168 2 1 144 113 124
foo [x] whileFalse: [y] => 1: 0 168 4 1 135 163 249 115 135 120
foo [x] whileTrue => 3 #whileTrue: 137 117 200 164 2 0 125 208 135 120
foo ^[:a :b | a] => 513: 137 119 200 164 4 105 104 16 125 124
foo ^[^1] => 1: 137 117 200 164 2 118 124 124
foo [:a | a]. [:a | a]. ^1 => 513: 137 118 200 164 3 104 16 125 135 137 118 200 164 3 105 17 125 135 118 124
foo [:x | x]. ^x => 257: 137 118 200 164 3 104 16 125 135 0 124
foo [:a | a]. ^a => code 16 1
foo <primitive: 60> ^x => 57349 60 owner: 0 124
foo <primitive: 60> ^60 => 57351 60 60 owner: 32 124
a: p b: q c: r d: s e: t ^p => 58629 1280 owner: 16 124
foo ^Shared => 3 @60: 64 124
foo Shared _ x => 3 @60: 0 130 192 120
foo <primitive: 256> => code 0 8
foo ^zork + -20000 => code 6 1
foo ^-20000 + zork => code 6 9
foo zork _ -20000 => code 5 1
foo: a | a | => code 10 2
foo [:a | [:a | a]] => code 13 2
foo: a a _ 1 => code 8 3
foo [:a | a _ 1] => code 11 3
foo self _ 1 => code 5 3
foo self _ zork => code 5 3
foo <primitive: 0> ^-20000 => code 21 9
foo super _ 1 => code 5 3
foo true _ 1 => code 5 3
foo false _ 1 => code 5 3
foo nil _ 1 => code 5 3
foo thisContext _ 1 => code 5 3
foo ~'a'. *63 => 127 63 158
foo ~'a'. *64 => code 0 4
foo ~[:a | a]. *30 => 7809 0 307
foo ~[:a | a]. *31 => code 0 6
foo ~[:a | a]. *32 => code 0 5
foo x ifTrue: [~x. *510~x] => 1 0 1028
foo x ifTrue: [~x. *511~x] => code 0 7
foo ~[].*16382 => 1 0 131057
foo ~[].*16383 => code 0 11
foo ^x~ y*32000 => 1 0 32002";

#[test]
fn texts_have_their_code_and_faults(rt: HostRuntime) {
    let names = names(rt.alloc()).expect(&rt, "memory");
    for row in ROWS.lines() {
        let (pieces, wanted) = row_of(row);
        let text = text_of(rt.alloc(), pieces).expect(&rt, "memory");
        assert!(rt; compiles(rt.alloc(), &text, &names, wanted), "{row}");
    }
}

#[test]
fn an_image_without_symbols_has_no_code(rt: HostRuntime) {
    let mut names = names(rt.alloc()).expect(&rt, "memory");
    names.symbols = false;
    assert!(rt; compiles(rt.alloc(), b"foo ^#a", &names, "code 0 10"));
}
