//! The method that is read of a method's parts.

ghost use Rattle.std.specs.Prelude.{◌≡◌, IfOk, Some, option_map};
ghost use Rattle.st_scan.specs.Views.{method_view, names_view, statements_view, expression_view};
ghost use Rattle.st_emit.specs.inside.Views.{literal_view, literals_view};
ghost use Rattle.st_code.specs.inside.MethodDrafts.{parts_view};
ghost use Rattle.st_decompile.specs.Back.{is_self, without_self};
ghost use Rattle.st_decompile.specs.Whole.{flag_in, variables_in, own_in, size_in, extension_in, primitive_by};
ghost use Rattle.st_decompile.specs.Whole.{primitive_in, variables_called, candidate};
ghost use Rattle.st_decompile.specs.inside.Methods.{literal_now, HasItems, method_by, IsCount};
ghost use Rattle.st_expression_stack.specs.{inside.Called.calling_view, Names.name_in};

use crate::instruction::steps_of;
use crate::reading::Reading;
use crate::region::region;
use st_code::MethodParts;
use st_emit::{InstructionOperand, Literal, sum};
use st_expression_stack::{Calling, NO_ARGUMENTS, Stack, Statements, arity, statements_of};
use st_scan::{Expression, MethodTree, NameList, Signed, Statement, StatementList};
use std::alloc::{AllocError, Global};

/// How deep regions may stand in one another, the method's own among them: no deeper than arguments and blocks in a text.
const MOST_DEEP: usize = 603;

/// The flag of a header.
fn flag_in(header: u16) -> u16
    ensures { result ≡ flag_in header }
{
    header / 8192
}

/// How many arguments, temporaries and block arguments a header says. With flag 6 there are none.
fn variables_in(header: u16) -> usize
    ensures { result ≡ variables_in header }
{
    if flag_in(header) == 6 {
        0
    } else {
        (header / 256 % 32) as usize
    }
}

/// The variables of the method itself, which end where the first argument of a block begins.
fn own_in(variables: usize, least: usize) -> usize
    ensures { result ≡ own_in variables least }
{
    if least == NO_ARGUMENTS {
        variables
    } else {
        least
    }
}

/// The size of a number. Of no other literal there is one.
fn size_of(literal: &Literal) -> u128
    ensures { result ≡ size_in (Some (literal_view literal.now)) }
{
    match literal {
        Literal::Number { size, .. } => *size,
        _ => 0,
    }
}

/// The size of a literal, if there is one.
fn size_in(literal: Option<&Literal>) -> u128
    ensures { result ≡ size_in (option_map literal_now literal.entry) }
{
    match literal {
        Some(literal) => size_of(literal),
        None => 0,
    }
}

/// The number before the last literal, or 0.
fn extension_in(literals: &[Literal]) -> u128
    ensures { result ≡ extension_in (literals_view literals.now) }
{
    size_in(literals.get(literals.len().saturating_sub(2)))
}

/// A primitive by its number. There is none of number 0.
fn primitive_by(number: u128) -> Option<Signed>
    ensures { result ≡ primitive_by number }
{
    if number == 0 {
        None
    } else {
        Some(Signed {
            minus: false,
            size: number,
        })
    }
}

/// The primitive of a method.
fn primitive_in(parts: &MethodParts) -> Option<Signed>
    ensures { result ≡ primitive_in (parts_view parts.now) }
{
    if flag_in(parts.header) == 7 {
        primitive_by(extension_in(&parts.literals) % 256)
    } else {
        None
    }
}

/// What so many variables are called, from a number on.
fn variables_called(
    alloc: Global,
    calling: &Calling,
    first: usize,
    count: usize,
) -> Result<NameList, AllocError>
    ensures { IfOk result (λ ns.
        names_view ns.items ≡ variables_called (name_in (calling_view calling.now)) first count) }
{
    let mut names = Vec::new(alloc);
    for i in 0..count {
        let number = sum(first, i)?;
        let name = calling.name_of(alloc, InstructionOperand::Temporary(number))?;
        names.push(name)?;
    }
    Ok(names)
}

/// Whether an expression is `self`.
fn is_self(e: &Expression) -> bool
    ensures { result ≡ is_self (expression_view e.now) }
{
    match e {
        Expression::Variable(name) => name.text.as_slice() == b"self".as_slice(),
        _ => false,
    }
}

/// How many statements stand up to the first that is returned, and with it if it isn't `self`.
fn count_without_self(statements: &[Statement]) -> usize
    ensures { IsCount statements.now result }
{
    for (i, statement) in statements.iter().enumerate() {
        if statement.returns {
            return if is_self(&statement.value) { i } else { i + 1 };
        }
    }
    statements.len()
}

/// Statements without `^self` at their end, which says nothing.
fn without_self(statements: StatementList) -> StatementList
    ensures { statements_view result.items ≡ without_self (statements_view statements.items) }
{
    let mut statements = statements;
    let count = count_without_self(&statements);
    statements.truncate(count);
    statements
}

/// The method with these statements.
fn method_of(
    alloc: Global,
    calling: &Calling,
    parts: &MethodParts,
    body: Statements,
) -> Result<MethodTree, AllocError>
    ensures { IfOk result (λ m. method_view m ≡ method_by calling.now parts.now body) }
{
    let count = arity(&parts.selector)?;
    let own = own_in(variables_in(parts.header), body.least);
    let arguments = variables_called(alloc, calling, 0, count)?;
    let temporaries = variables_called(alloc, calling, count, own.saturating_sub(count))?;
    let selector = parts.selector.to_vec(alloc)?;
    let primitive = primitive_in(parts);
    let body = without_self(body.list);
    Ok(MethodTree {
        selector,
        arguments,
        temporaries,
        primitive,
        body,
    })
}

/// What is read of a method's code.
fn items_of(alloc: Global, reading: Reading<'_>, bytes: &[u8]) -> Result<Option<Stack>, AllocError>
    ensures { IfOk result (HasItems reading.entry bytes.now) }
{
    let Some(steps) = steps_of(alloc, bytes)? else {
        return Ok(None);
    };
    region(alloc, reading, MOST_DEEP, 0, &steps)
}

/// The method that is read of a method's parts. That its code is these parts has to be tested.
pub fn candidate(
    alloc: Global,
    calling: &Calling,
    parts: &MethodParts,
) -> Result<Option<MethodTree>, AllocError>
    ensures { IfOk result (λ m. option_map method_view m
        ≡ candidate (name_in (calling_view calling.now)) (parts_view parts.now)) }
{
    let reading = Reading {
        calling,
        literals: &parts.literals,
    };
    let Some(items) = items_of(alloc, reading, &parts.bytes)? else {
        return Ok(None);
    };
    let mut items = items;
    let body = statements_of(alloc, &mut items)?;
    let method = method_of(alloc, calling, parts, body)?;
    Ok(Some(method))
}
