//! What variables are called in the tree that is read: instance variables and shared ones by their names, if a text can use
//! these, and the method's own `t1`, `t2` and so on, the names of the class left out.

ghost use Rattle.std.specs.Prelude.{◌≡◌, map, slice_get, option_map, IfOk};
ghost use Rattle.std.specs.{Char.{is_ascii_alphabetic, is_ascii_alphanumeric}, List.list_all};
ghost use Rattle.st_scan.specs.{Views.name_view, Pieces.{begins, is_name}};
ghost use Rattle.st_emit.specs.inside.NameViews.{names_view, texts_view, variable_view};
ghost use Rattle.st_emit.specs.inside.Views.{literal_view, literals_view};
ghost use Rattle.st_expression_stack.specs.{Choosing.called, inside.Called.{calling_view, items_now}};
ghost use Rattle.st_expression_stack.specs.Names.{is_usable, usable_or, texts_of};
ghost use Rattle.st_expression_stack.specs.Names.{is_value, names_value, shared_text, literal_text, calling_of, name_in, or_unused};

use crate::make;
use crate::own::{Taken, first_names, listed_name, taken_of};
use st_emit::{
    InstructionOperand, Literal, Names, TextList, Variable, constant_named, variable_named,
};
use st_model::Oop;
use st_scan::{Name, Text};
use std::alloc::{AllocError, Global};

/// What variables are called: instance variables by their numbers, shared ones by their literals' places, and the method's own,
/// of which the first are listed, apart from the names of the class.
#[derive(Drop)]
pub struct Calling {
    fields: TextList,
    shared: TextList,
    own: TextList,
    taken: Taken,
}

/// Whether a text begins with a letter.
fn begins_with_letter(text: &[u8]) -> bool
    ensures { result ≡ begins is_ascii_alphabetic text.now }
{
    match text {
        [first, ..] => first.is_ascii_alphabetic(),
        [] => false,
    }
}

/// Whether a text has letters and digits alone.
fn is_alphanumeric(text: &[u8]) -> bool
    ensures { result ≡ list_all is_ascii_alphanumeric text.now }
{
    text.iter().all(|b| b.is_ascii_alphanumeric())
}

/// Whether a text is a name: letters and digits, a letter first.
fn is_name(text: &[u8]) -> bool
    ensures { result ≡ is_name text.now }
{
    begins_with_letter(text) && is_alphanumeric(text)
}

/// Whether a text of a method can use this for a variable: a name that isn't one of the six that are always theirs.
fn is_usable(text: &[u8]) -> bool
    ensures { result ≡ is_usable text.now }
{
    is_name(text) && constant_named(text).is_none()
}

/// This text, if a text of a method can use it.
fn usable_or(alloc: Global, text: &[u8]) -> Result<Text, AllocError>
    ensures { IfOk result (λ t. t.items ≡ usable_or text.now) }
{
    if is_usable(text) {
        text.to_vec(alloc)
    } else {
        b"self".as_slice().to_vec(alloc)
    }
}

/// What instance variables are called.
fn field_texts(alloc: Global, fields: &[Text]) -> Result<TextList, AllocError>
    ensures { IfOk result (λ ts. texts_view ts.items ≡ map usable_or (texts_view fields.now)) }
{
    let mut texts = Vec::new(alloc);
    for field in fields {
        texts.push(usable_or(alloc, field)?)?;
    }
    Ok(texts)
}

/// The names that are shared.
fn shared_texts(alloc: Global, names: &Names) -> Result<TextList, AllocError>
    ensures { IfOk result (λ ts. texts_view ts.items ≡ texts_of (names_view names.now).shared) }
{
    let mut texts = Vec::new(alloc);
    for (text, _) in names.shared.iter() {
        texts.push(text.to_vec(alloc)?)?;
    }
    Ok(texts)
}

/// Whether what a name means is the value of an association.
fn is_value(found: Option<Variable>, association: Oop) -> bool
    ensures { result ≡ is_value (option_map variable_view found) association.0 }
{
    match found {
        Some(Variable::Shared(value)) => value == association,
        Some(Variable::Field(_)) => false,
        Some(Variable::Temporary { .. }) => false,
        None => false,
    }
}

/// Whether a name means the value of an association, and a text of a method can use it.
#[tactic(auto, using(crate::proofs::NameTurns::values))]
pub fn names_value(names: &Names, text: &[u8], association: Oop) -> Result<bool, AllocError>
    ensures { IfOk result (λ b. b ≡ names_value (names_view names.now) text.now association.0) }
{
    if !is_usable(text) {
        return Ok(false);
    }
    let found = variable_named(names, &[], text)?;
    Ok(is_value(found, association))
}

/// The first name that means the value of an association.
fn shared_text(
    alloc: Global,
    names: &Names,
    texts: &[Text],
    association: Oop,
) -> Result<Text, AllocError>
    ensures { IfOk result (λ t.
        t.items ≡ shared_text (names_view names.now) association.0 (texts_view texts.now)) }
{
    for text in texts {
        if names_value(names, text, association)? {
            return text.to_vec(alloc);
        }
    }
    b"self".as_slice().to_vec(alloc)
}

/// What the variable of a literal is called.
fn literal_text(
    alloc: Global,
    names: &Names,
    texts: &[Text],
    literal: &Literal,
) -> Result<Text, AllocError>
    requires { texts_view texts.now ≡ texts_of (names_view names.now).shared }
    ensures { IfOk result (λ t. t.items ≡ literal_text (names_view names.now) (literal_view literal.now)) }
{
    match literal {
        Literal::Named(association) => shared_text(alloc, names, texts, *association),
        _ => b"self".as_slice().to_vec(alloc),
    }
}

/// What the variables of literals are called, by their places.
fn literal_texts(
    alloc: Global,
    names: &Names,
    texts: &[Text],
    literals: &[Literal],
) -> Result<TextList, AllocError>
    requires { texts_view texts.now ≡ texts_of (names_view names.now).shared }
    ensures { IfOk result (λ ts.
        texts_view ts.items ≡ map (literal_text (names_view names.now)) (literals_view literals.now)) }
{
    let mut called = Vec::new(alloc);
    for literal in literals {
        called.push(literal_text(alloc, names, texts, literal)?)?;
    }
    Ok(called)
}

/// What the variables of a method of a class with these names are called, by its literals. Those of its own are listed up to a
/// number, so that no name is sought twice.
pub fn calling_of(
    alloc: Global,
    names: &Names,
    literals: &[Literal],
    variables: usize,
) -> Result<Calling, AllocError>
    ensures { IfOk result (λ c.
        calling_view c ≡ calling_of (names_view names.now) (literals_view literals.now)) }
{
    let texts = shared_texts(alloc, names)?;
    let fields = field_texts(alloc, &names.fields)?;
    let shared = literal_texts(alloc, names, &texts, literals)?;
    let taken = taken_of(alloc, &names.fields, &texts)?;
    let own = first_names(alloc, &taken, variables)?;
    Ok(Calling {
        fields,
        shared,
        own,
        taken,
    })
}

/// A text, or what stands for none.
fn text_or_unused(alloc: Global, text: Option<&Text>) -> Result<Text, AllocError>
    ensures { IfOk result (λ t. t.items ≡ or_unused (option_map items_now text.entry)) }
{
    match text {
        Some(text) => text.to_vec(alloc),
        None => b"self".as_slice().to_vec(alloc),
    }
}

/// The text at a place.
fn text_at(alloc: Global, texts: &[Text], place: usize) -> Result<Text, AllocError>
    ensures { IfOk result (λ t. t.items ≡ or_unused (slice_get (texts_view texts.now) place)) }
{
    text_or_unused(alloc, texts.get(place))
}

impl Calling {
    /// What a variable is called.
    pub fn name_of(&self, alloc: Global, place: InstructionOperand) -> Result<Name, AllocError>
        ensures { IfOk result (λ n. name_view n ≡ called (name_in (calling_view self.now) place)) }
    {
        let text = match place {
            InstructionOperand::Field(n) => text_at(alloc, &self.fields, n)?,
            InstructionOperand::Temporary(k) => listed_name(alloc, &self.own, &self.taken, k)?,
            InstructionOperand::Literal(_) => b"self".as_slice().to_vec(alloc)?,
            InstructionOperand::Shared(p) => text_at(alloc, &self.shared, p)?,
        };
        Ok(make::called(text))
    }
}
