//! Whether two methods are the same.

ghost use Rattle.std.specs.Prelude.{◌≡◌, option_map};
ghost use Rattle.st_emit.specs.inside.Views.{literal_view, members_view};
ghost use Rattle.st_code.specs.inside.MethodDrafts.{parts_view};
ghost use Rattle.st_decompile.specs.Comparing.{same_literal, same_members, same_parts};
ghost use Rattle.st_decompile.specs.inside.Members.{members_of, members_now};

use st_code::MethodParts;
use st_emit::Literal;

/// The members of a literal array.
#[tactic(auto, using(st_emit::proofs::Members::array_view))]
fn members_of(literal: &Literal) -> Option<&[Literal]>
    ensures { option_map members_now result ≡ members_of (literal_view literal.now) }
{
    match literal {
        Literal::Array(members) => Some(members),
        Literal::Number { .. } => None,
        Literal::Character(_) => None,
        Literal::Bytes(_) => None,
        Literal::Symbol(_) => None,
        Literal::Named(_) => None,
        Literal::Owner => None,
    }
}

/// Whether two literal arrays have the same members.
#[cycle(comparing)]
fn same_members(a: &[Literal], b: &[Literal]) -> bool
    ensures { result ≡ same_members (members_view a.now) (members_view b.now) }
{
    let mut rest = b;
    for x in a {
        let [y, others @ ..] = rest else {
            return false;
        };
        if !same_literal(x, y) {
            return false;
        }
        rest = others;
    }
    rest.is_empty()
}

/// Whether two literals are the same.
#[cycle(comparing)]
fn same_literal(a: &Literal, b: &Literal) -> bool
    ensures { result ≡ same_literal (literal_view a.now) (literal_view b.now) }
{
    match (a, b) {
        (
            Literal::Number { minus, size },
            Literal::Number {
                minus: other,
                size: more,
            },
        ) => *minus == *other && *size == *more,
        (Literal::Character(x), Literal::Character(y)) => *x == *y,
        (Literal::Bytes(x), Literal::Bytes(y)) => x.as_slice() == y.as_slice(),
        (Literal::Symbol(x), Literal::Symbol(y)) => x.as_slice() == y.as_slice(),
        (Literal::Array(x), _) => match members_of(b) {
            Some(y) => same_members(x, y),
            None => false,
        },
        (Literal::Named(x), Literal::Named(y)) => x.0 == y.0,
        (Literal::Owner, Literal::Owner) => true,
        _ => false,
    }
}

/// Whether two methods are the same: their selectors, headers, literals and bytes.
#[tactic(auto, using(crate::proofs::Sameness::members_as))]
pub fn same_parts(a: &MethodParts, b: &MethodParts) -> bool
    ensures { result ≡ same_parts (parts_view a.now) (parts_view b.now) }
{
    if a.header != b.header {
        return false;
    }
    if a.selector.as_slice() != b.selector.as_slice() {
        return false;
    }
    if a.bytes.as_slice() != b.bytes.as_slice() {
        return false;
    }
    same_members(&a.literals, &b.literals)
}
