//! Texts that are scanned: their tokens, or the scanner's first fault.

use crate::texts::{is_fault, is_number, is_signed, row_of, text_of};
use st_scan::{Sort, SyntaxFault, Token, tokens};
use std::alloc::Global;
use std::process::Abort;

/// The name of a sort.
fn name_of(sort: Sort) -> &'static str {
    match sort {
        Sort::Name => "name",
        Sort::Keyword => "keyword",
        Sort::Operator => "operator",
        Sort::Number(_) => "number",
        Sort::Character(_) => "character",
        Sort::Bytes => "string",
        Sort::Symbol => "symbol",
        Sort::Opening => "opening",
        Sort::Mark => "mark",
    }
}

/// Whether this is the value of a number or the byte of a character; other sorts have none.
fn is_value(text: &str, sort: Sort) -> bool {
    match sort {
        Sort::Number(number) => is_signed(text, number),
        Sort::Character(byte) => is_number(text, u128::from(byte)),
        _ => text.is_empty(),
    }
}

/// Whether this names a sort, with the value of a number and the byte of a character.
fn is_sort(text: &str, sort: Sort) -> bool {
    let (name, value) = text.split_once(' ').unwrap_or((text, ""));
    name == name_of(sort) && is_value(value, sort)
}

/// Whether a token is of this sort, with this first byte and this one after it.
fn is_token(text: &str, token: &Token) -> bool {
    let (front, end) = text.rsplit_once(' ').unwrap_or((text, ""));
    let (sort, start) = front.rsplit_once(' ').unwrap_or((front, ""));
    is_sort(sort, token.sort)
        && is_number(start, u128::from(token.start))
        && is_number(end, u128::from(token.end))
}

/// Whether these are tokens in words, with commas between.
fn are_tokens(text: &str, found: &[Token]) -> bool {
    if found.is_empty() {
        return text == "none";
    }
    let mut seen = 0usize;
    for words in text.split(", ") {
        match found.get(seen) {
            Some(token) if is_token(words, token) => seen += 1,
            _ => return false,
        }
    }
    seen == found.len()
}

/// Whether a text has these tokens, or this fault.
fn has_tokens(alloc: Global, text: &[u8], wanted: &str) -> bool {
    if text.len() > 65_536 {
        return false;
    }
    match tokens(alloc, text) {
        Ok(found) => are_tokens(wanted, &found),
        Err(SyntaxFault::At { place, cause }) => is_fault(wanted, "syntax", place, cause),
        Err(SyntaxFault::OutOfMemory) => false,
    }
}

/// Texts, and their tokens or the scanner's first fault, one a line.
const ROWS: &str = r#" => none
3.5 => syntax 1 5
3. => number 3 0 1, mark 1 2
3. 5 => number 3 0 1, mark 1 2, number 5 3 4
3E5 => number 3 0 1, name 1 3
3e => number 3 0 1, name 1 2
3e5 => syntax 1 5
3e-5 => syntax 1 5
3e- 5 => number 3 0 1, name 1 2, operator 2 3, number 5 4 5
2r1 => number 1 0 3
36rZ => number 35 0 4
016r1 => number 1 0 5
16rFF => number 255 0 5
16rg => number 16 0 2, name 2 4
16r1r1 => number 1 0 4, name 4 6
0r1 => syntax 1 4
1r1 => syntax 1 4
37r1 => syntax 1 4
2r3 => syntax 1 4
3rA => syntax 1 4
99999999999999999999r1 => syntax 1 4
16r1e5 => syntax 1 5
16r1F.5 => syntax 1 5
37r1.5 => syntax 1 4
340282366920938463463374607431768211456.5 => syntax 1 4
340282366920938463463374607431768211455 => number 340282366920938463463374607431768211455 0 39
340282366920938463463374607431768211456 => syntax 1 4
16rFFFFFFFFFFFFFFFFFFFFFFFFFFFFFFFF => number 340282366920938463463374607431768211455 0 35
16r100000000 => number 4294967296 0 12
2r11111111111111111111111111111111111111111111111111111111111111111111111111111111111111111111111111111111111111111111111111111111 => number 340282366920938463463374607431768211455 0 130
2r100000000000000000000000000000000000000000000000000000000000000000000000000000000000000000000000000000000000000000000000000000000 => syntax 1 4
36rF5LXX1ZZ5PNORYNQGLHZMSP33 => number 340282366920938463463374607431768211455 0 28
36rF5LXX1ZZ5PNORYNQGLHZMSP34 => syntax 1 4
16r100000000000000000000000000000000 => syntax 1 4
-0 => number -0 0 2
-16rA => number -10 0 5
^-37r1 => syntax 2 4
x -37r1 => syntax 4 4
-1 => number -1 0 2
x -1 => name 0 1, operator 2 3, number 1 3 4
x: -1 => keyword 0 2, number -1 3 5
+ -1 => operator 0 1, number -1 2 4
| -1 => operator 0 1, number -1 2 4
1 -1 => number 1 0 1, operator 2 3, number 1 3 4
$a -1 => character 97 0 2, operator 3 4, number 1 4 5
'a' -1 => string 0 3, operator 4 5, number 1 5 6
#a -1 => symbol 0 2, operator 3 4, number 1 4 5
#( -1 => opening 0 2, number -1 3 5
( -1 => mark 0 1, number -1 2 4
) -1 => mark 0 1, operator 2 3, number 1 3 4
[ -1 => mark 0 1, number -1 2 4
] -1 => mark 0 1, operator 2 3, number 1 3 4
^ -1 => mark 0 1, number -1 2 4
. -1 => mark 0 1, number -1 2 4
; -1 => mark 0 1, number -1 2 4
: -1 => mark 0 1, number -1 2 4
_ -1 => mark 0 1, number -1 2 4
:= -1 => mark 0 2, number -1 3 5
x|-1 => name 0 1, operator 1 2, number -1 2 4
[:a|-1] => mark 0 1, mark 1 2, name 2 3, operator 3 4, number -1 4 6, mark 6 7
foo -1 => name 0 3, operator 4 5, number 1 5 6
x "c" -1 => name 0 1, operator 6 7, number 1 7 8
^"c"-1 => mark 0 1, number -1 4 6
x--1 => name 0 1, operator 1 2, number -1 2 4
x->1 => name 0 1, operator 1 3, number 1 3 4
>-1 => operator 0 1, number -1 1 3
- 1 => operator 0 1, number 1 2 3
#(a -1) => opening 0 2, name 2 3, number -1 4 6, mark 6 7
#(1 (2 -3) -4) -5 => opening 0 2, number 1 2 3, mark 4 5, number 2 5 6, number -3 7 9, mark 9 10, number -4 11 13, mark 13 14, operator 15 16, number 5 16 17
#(#(a) -1) -2 => opening 0 2, opening 2 4, name 4 5, mark 5 6, number -1 7 9, mark 9 10, operator 11 12, number 2 12 13
(#(a) -1 => mark 0 1, opening 1 3, name 3 4, mark 4 5, operator 6 7, number 1 7 8
<== => operator 0 2, operator 2 3
-- => operator 0 1, operator 1 2
|| => operator 0 1, operator 1 2
+| => operator 0 1, operator 1 2
|+ => operator 0 1, operator 1 2
\\ => operator 0 2
#a1 => symbol 0 3
#a:b => symbol 0 3, name 3 4
#a:b: => symbol 0 5
#a:b:c => symbol 0 5, name 5 6
#a:= => symbol 0 2, mark 2 4
#a:b:=1 => symbol 0 3, name 3 4, mark 4 6, number 1 6 7
#+ => symbol 0 2
#++ => symbol 0 3
#-- => symbol 0 2, operator 2 3
#-1 => symbol 0 2, number 1 2 3
#| => symbol 0 2
# => syntax 1 1
# a => syntax 1 1
##a => syntax 1 1
#'a' => syntax 1 1
#1 => syntax 1 1
#$a => syntax 1 1
#[ => syntax 1 1
# ( => syntax 1 1
#( => opening 0 2
$ => syntax 1 1
a$ => syntax 2 1
$$ => character 36 0 2
$  => character 32 0 2
$' => character 39 0 2
'it''s' => string 0 7
'' => string 0 2
'''' => string 0 4
'a'b => string 0 3, name 3 4
'x => syntax 1 2
'x'' => syntax 1 2
' => syntax 1 2
"x" => none
"" => none
"a""b" => none
a"b"c => name 0 1, name 4 5
"x => syntax 1 2
a " => syntax 3 2
x:=1 => name 0 1, mark 1 3, number 1 3 4
x: =1 => keyword 0 2, operator 3 4, number 1 4 5
x :=1 => name 0 1, mark 2 4, number 1 4 5
x::=1 => keyword 0 2, mark 2 4, number 1 4 5
x_1 => name 0 1, mark 1 2, number 1 2 3
:x => mark 0 1, name 1 2
x: => keyword 0 2
)] => mark 0 1, mark 1 2
{ => syntax 1 1
! => syntax 1 1
` => syntax 1 1
3.5 37r1 => syntax 1 5
"x 3.5 => syntax 1 2
x 3.5 "y => syntax 3 5
{ 3.5 => syntax 1 1
foo ^1 ) "x => syntax 10 2
foo ^(1 3.5) => syntax 9 5
foo ^1 3.5 => syntax 8 5
foo "x => syntax 5 2
foo ^3.5 => syntax 6 5
foo ^37r1 => syntax 6 4
foo ^340282366920938463463374607431768211456 => syntax 6 4
foo <primitive: -20000> => name 0 3, operator 4 5, keyword 5 15, number -20000 16 22, operator 22 23
foo | a a | => name 0 3, operator 4 5, name 6 7, name 8 9, operator 10 11
a: b b _ 1 => keyword 0 2, name 3 4, name 5 6, mark 7 8, number 1 9 10
foo super _ 1 => name 0 3, name 4 9, mark 10 11, number 1 12 13
foo ^#a => name 0 3, mark 4 5, symbol 5 7
foo (x y); z => name 0 3, mark 4 5, name 5 6, name 7 8, mark 8 9, mark 9 10, name 11 12
foo ^-16385 => name 0 3, mark 4 5, number -16385 5 11
"#;

/// Bytes that are no blank and begin no token, after a `$` and within a string or a comment, and what is found.
const BYTES: &str = "\u{0} => syntax 1 1
a\u{0}b => syntax 2 1
1\u{0} => syntax 2 1
16r\u{0} => syntax 4 1
-\u{0}1 => syntax 2 1
:\u{0}= => syntax 2 1
#\u{0}a => syntax 1 1
#a:\u{0}b: => syntax 4 1
#(\u{0}) => syntax 3 1
'a\u{0}' => string 0 4
'a\u{0} => syntax 1 2
\"a\u{0}\" => none
\u{b} => syntax 1 1
a\u{b}b => syntax 2 1
1\u{b} => syntax 2 1
16r\u{b} => syntax 4 1
-\u{b}1 => syntax 2 1
:\u{b}= => syntax 2 1
#\u{b}a => syntax 1 1
#a:\u{b}b: => syntax 4 1
#(\u{b}) => syntax 3 1
'a\u{b}' => string 0 4
'a\u{b} => syntax 1 2
\"a\u{b}\" => none
\u{ff} => syntax 1 1
a\u{ff}b => syntax 2 1
1\u{ff} => syntax 2 1
16r\u{ff} => syntax 4 1
-\u{ff}1 => syntax 2 1
:\u{ff}= => syntax 2 1
#\u{ff}a => syntax 1 1
#a:\u{ff}b: => syntax 4 1
#(\u{ff}) => syntax 3 1
'a\u{ff}' => string 0 4
'a\u{ff} => syntax 1 2
\"a\u{ff}\" => none
$\u{0} => character 0 0 2
$\u{b} => character 11 0 2
$\u{ff} => character 255 0 2";

fn check_rows(rt: &impl Abort, alloc: Global, rows: &str) {
    for row in rows.lines() {
        let (pieces, wanted) = row_of(row);
        let text = text_of(alloc, pieces).expect(rt, "memory");
        assert!(rt; has_tokens(alloc, &text, wanted), "{row}");
    }
}

#[test]
fn texts_have_their_tokens(rt: HostRuntime) {
    check_rows(&rt, rt.alloc(), ROWS);
    check_rows(&rt, rt.alloc(), BYTES);
    assert!(rt; has_tokens(rt.alloc(), b"\t\n\x0c\r a", "name 5 6"));
}
