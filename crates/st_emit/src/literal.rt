//! The literals of a method.

ghost use Rattle.std.specs.Prelude.{◌≡◌, IfOk};
ghost use Rattle.st_scan.specs.Views.{content_view, elements_view};
ghost use Rattle.st_emit.specs.Literals.{small_number, literal_of, members_of, array};
ghost use Rattle.st_emit.specs.inside.Views.{literal_view, members_view};

use st_model::Oop;
use st_scan::{Content, Element, Signed, Text};
use std::alloc::{AllocError, Global};

/// The literals of a method in the order of their places, or the members of a literal array.
pub type LiteralList = Vec<Literal>;

/// A literal. `Named` is an association, nil, false or true, and `Owner` the association of the method's class.
#[derive(Drop)]
pub enum Literal {
    Number { minus: bool, size: u128 },
    Character(u8),
    Bytes(Text),
    Symbol(Text),
    Array(LiteralList),
    Named(Oop),
    Owner,
}

/// A number from -1 to 2, by one more than it.
pub fn small_number(n: Signed) -> Option<usize>
    ensures { result ≡ small_number n }
{
    if n.size == 0 {
        Some(1)
    } else if n.minus {
        if n.size == 1 { Some(0) } else { None }
    } else if n.size == 1 {
        Some(2)
    } else if n.size == 2 {
        Some(3)
    } else {
        None
    }
}

/// A literal array.
#[tactic(auto, using(crate::proofs::Members::array_view))]
fn array(members: LiteralList) -> Literal
    ensures { literal_view result ≡ array (members_view members.items) }
{
    Literal::Array(members)
}

/// The literals of an array's elements, in their order.
#[cycle(arrays)]
fn members_of(alloc: Global, elements: &[Element]) -> Result<LiteralList, AllocError>
    ensures { IfOk result (λ ls. members_view ls.items ≡ members_of (elements_view elements.now)) }
{
    let mut members = Vec::new(alloc);
    for element in elements {
        members.push(literal_of(alloc, &element.what)?)?;
    }
    Ok(members)
}

/// The literal of what stands in a tree. The members of an array stand in it, each a literal of its own.
#[cycle(arrays)]
#[tactic(auto, using(st_scan::proofs::Views::views))]
pub fn literal_of(alloc: Global, what: &Content) -> Result<Literal, AllocError>
    ensures { IfOk result (λ l. literal_view l ≡ literal_of (content_view what.now)) }
{
    match what {
        Content::Number(n) => Ok(Literal::Number {
            minus: n.minus,
            size: n.size,
        }),
        Content::Character(b) => Ok(Literal::Character(*b)),
        Content::Bytes(text) => Ok(Literal::Bytes(text.to_vec(alloc)?)),
        Content::Symbol(text) => Ok(Literal::Symbol(text.to_vec(alloc)?)),
        Content::Array(elements) => Ok(array(members_of(alloc, elements)?)),
        Content::Nil => Ok(Literal::Named(Oop::NIL)),
        Content::False => Ok(Literal::Named(Oop::FALSE)),
        Content::True => Ok(Literal::Named(Oop::TRUE)),
    }
}
