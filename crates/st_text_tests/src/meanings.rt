//! What the code of texts does: the deeds of its walk, which are those of the tree's trace.

use crate::compiling::names;
use crate::texts::{is_marked_number, is_number, row_of, text_of};
use st_code::{MethodParts, Names, compile};
use st_meaning::{
    Answer, AnswerList, Deed, Deeds, FALSE, MeaningFault, NIL, TRUE, Value, Variable, trace, walk,
};
use st_parse::parse;
use st_scan::MethodTree;
use std::alloc::{AllocError, Global};

/// Whether this is a variable: a temporary, a field or what an association has.
fn is_variable(word: &str, variable: Variable) -> bool {
    let (mark, number) = match variable {
        Variable::Temporary(number) => ("t", number),
        Variable::Field(number) => ("f", number),
        Variable::Shared(number) => ("s", number),
    };
    is_marked_number(word, mark, u128::from(number))
}

/// Whether this is a value: a number, `c0` for self to `c3` for nil, a variable's first value, a literal, a block or an answer.
fn is_value(word: &str, value: Value) -> bool {
    let (mark, number) = match value {
        Value::Number(number) => return word.parse::<i16>().ok() == Some(number),
        Value::First(variable) => return is_variable(word, variable),
        Value::Constant(number) => ("c", u32::from(number)),
        Value::Literal(number) => ("l", u32::from(number)),
        Value::Block(number) => ("b", number),
        Value::Answer(number) => ("a", number),
    };
    is_marked_number(word, mark, u128::from(number))
}

/// Whether these are the values, with a blank before each.
fn are_values(text: &str, values: &[Value]) -> bool {
    let mut seen = 0usize;
    for word in text.split(' ').skip(1) {
        match values.get(seen) {
            Some(value) if is_value(word, *value) => seen += 1,
            _ => return false,
        }
    }
    seen == values.len()
}

/// Whether this is a message: receiver, selector and arguments.
fn is_message(text: &str, receiver: Value, selector: &[u8], arguments: &[Value]) -> bool {
    let (to, message) = text.split_once(' ').unwrap_or((text, ""));
    let (name, _) = message.split_once(' ').unwrap_or((message, ""));
    is_value(to, receiver) && name.as_bytes() == selector && are_values(message, arguments)
}

/// Whether this is a deed: a message, one to super, an assignment, a block that is made, what is returned, or what a form asks that
/// isn't known to be a boolean.
fn is_deed(text: &str, deed: &Deed) -> bool {
    let (mark, rest) = text.split_once(' ').unwrap_or((text, ""));
    match deed {
        Deed::Send {
            receiver,
            selector,
            arguments,
            above,
        } => {
            let message = if *above { rest } else { text };
            *above == (mark == "super") && is_message(message, *receiver, selector, arguments)
        }
        Deed::Assign { variable, value } => {
            is_variable(mark, *variable) && is_value(rest.strip_prefix("_ ").unwrap_or(""), *value)
        }
        Deed::Block { number } => mark == "block" && is_number(rest, u128::from(*number)),
        Deed::Return { value } => mark == "^" && is_value(rest, *value),
        Deed::Unsure { value } => mark == "?" && is_value(rest, *value),
    }
}

/// Whether these are the deeds, with commas between; or this is how many there are.
fn are_deeds(text: &str, deeds: &[Deed]) -> bool {
    let mut seen = 0usize;
    for words in text.split(", ") {
        match deeds.get(seen) {
            Some(deed) if is_deed(words, deed) => seen += 1,
            _ => return is_number(text, deeds.len() as u128),
        }
    }
    seen == deeds.len()
}

/// Whether these deeds, or too many, were done.
fn is_done(done: Result<Deeds, MeaningFault>, wanted: &str) -> bool {
    match done {
        Ok(deeds) => are_deeds(wanted, &deeds),
        Err(MeaningFault::Long) => wanted == "long",
        Err(_) => false,
    }
}

/// Whether these deeds come of a tree, and of its code.
#[tactic(auto, using(st_meaning::proofs::Sources::coded_sound))]
fn does(
    alloc: Global,
    tree: &MethodTree,
    names: &Names,
    answers: &AnswerList,
    wanted: &str,
) -> bool {
    match compile(alloc, tree, names) {
        Ok(parts) => is_done(trace(alloc, tree, names, answers), wanted)
            && is_done(walk(alloc, &parts, answers), wanted),
        Err(_) => false,
    }
}

/// Whether they come of a text.
fn means(alloc: Global, text: &[u8], names: &Names, answers: &AnswerList, wanted: &str) -> bool {
    if text.len() > 65_536 {
        return false;
    }
    match parse(alloc, text) {
        Ok(tree) => does(alloc, &tree, names, answers, wanted),
        Err(_) => false,
    }
}

/// The answer that a letter stands for: true, and the variable y is true then; true, false, nil, a number, or an answer of the caller.
fn answer_of(alloc: Global, letter: u8) -> Result<Answer, AllocError> {
    let value = match letter {
        b'y' | b't' => TRUE,
        b'f' => FALSE,
        b'n' => NIL,
        b'0'..=b'9' => Value::Number(i16::from(letter - b'0')),
        _ => Value::Answer(u32::from(letter)),
    };
    let mut changes = Vec::new(alloc);
    if letter == b'y' {
        changes.push((Variable::Field(1), TRUE))?;
    }
    Ok(Answer { value, changes })
}

/// The answers that the letters of some pieces stand for.
fn answers_of(alloc: Global, pieces: &str) -> Result<AnswerList, AllocError> {
    let letters = text_of(alloc, pieces)?;
    let mut answers = Vec::new(alloc);
    for letter in &letters {
        answers.push(answer_of(alloc, *letter)?)?;
    }
    Ok(answers)
}

/// Texts, what their messages answer, and what is done, one a line; at last lists of as many deeds as there may be, and past that,
/// jumps back likewise, and the longest code.
const ROWS: &str = "max: a ^self > a ifTrue: [self] ifFalse: [a] => t => c0 > t0, ^ c0
max: a ^self > a ifTrue: [self] ifFalse: [a] => f => c0 > t0, ^ t0
max: a ^self > a ifTrue: [self] ifFalse: [a] => 7 => c0 > t0, ? 7
count | n | n _ 0. [n < 3] whileTrue: [n _ n + 1]. ^n => t1f => t0 _ 0, 0 < 3, 0 + 1, t0 _ 1, 1 < 3, ^ 1
count | n | n _ 0. [n < 3] whileTrue: [n _ n + 1]. ^n => t => t0 _ 0, 0 < 3, 0 + 1
count | n | n _ 0. [n < 3] whileTrue: [n _ n + 1]. ^n =>  => t0 _ 0, 0 < 3
foo [x foo] whileFalse: [y bar] => fnt => f0 foo, f1 bar, f0 foo, ^ c0
foo [x foo] whileFalse: [y bar] => fnn => f0 foo, f1 bar, f0 foo, ? c3
foo ^x bar: 1; bar: 20000; baz => n => f0 bar: 1, f0 bar: l1
foo ^super at: x put: 'a' => A => super c0 at:put: f0 l0, ^ a65
foo ^[:a | a + 1] =>  => block 0, ^ b0
foo ^x and: [y foo] =>  => ? f0
foo ^x bar or: [y foo] => f => f0 bar, f1 foo
foo ^(Shared _ x) == y => n => s0 _ f0, f0 == f1, ^ c3
foo | t | ^t =>  => ^ c3
foo [x foo] whileTrue: [nil] => t*999999 => 1000000
foo [x foo] whileTrue: [nil] => t*1000000 => long
foo [true] whileTrue: [nil] =>  => long
foo [x foo] whileTrue: [[y] whileTrue: [[y] whileTrue: [y _ false]]] => y*333333~t => 666668
foo [x foo] whileTrue: [[y] whileTrue: [[y] whileTrue: [y _ false]]] => y*333333~tt => long
foo ~[].*16382~x. x. x. ^x =>  => 16383";

#[test]
fn code_does_what_its_text_says(rt: HostRuntime) {
    let names = names(rt.alloc()).expect(&rt, "memory");
    for row in ROWS.lines() {
        let (pieces, rest) = row_of(row);
        let (letters, wanted) = row_of(rest);
        let text = text_of(rt.alloc(), pieces).expect(&rt, "memory");
        let answers = answers_of(rt.alloc(), letters).expect(&rt, "memory");
        assert!(rt; means(rt.alloc(), &text, &names, &answers, wanted), "{row}");
    }
}

/// Code that no compiler makes, and what is done by it before it can't go on.
const BROKEN: &[(&[u8], &str)] = &[
    (&[], "0"),
    (&[118, 96, 135], "f0 _ 1"),
    (&[118, 96, 118, 176], "f0 _ 1"),
    (&[118, 96, 128], "f0 _ 1"),
];

fn parts_of(alloc: Global, bytes: &[u8]) -> Result<MethodParts, AllocError> {
    Ok(MethodParts {
        selector: Vec::new(alloc),
        header: 1,
        literals: Vec::new(alloc),
        bytes: bytes.to_vec(alloc)?,
    })
}

#[test]
fn code_ends_where_it_cannot_go_on(rt: HostRuntime) {
    let answers = Vec::new(rt.alloc());
    for (bytes, wanted) in BROKEN {
        let parts = parts_of(rt.alloc(), bytes).expect(&rt, "memory");
        assert!(rt; is_done(walk(rt.alloc(), &parts, &answers), wanted));
    }
}
