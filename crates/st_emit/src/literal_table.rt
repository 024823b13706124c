//! The literals of a method, found without looking at all of them.

ghost use Rattle.std.specs.Prelude.{◌≡◌, [], ◌∷◌, ◌++◌, length, IfOk, OnOk, OnErr};
ghost use Rattle.st_emit.specs.inside.Views.{literal_view, literals_view};
ghost use Rattle.st_emit.specs.inside.LiteralPlaces.{key_view, IsKeyOf, noted, literal_place, IsNoted};

use crate::literal::{Literal, LiteralList};
use st_scan::Text;
use std::alloc::{AllocError, Global};
use std::collections::BTreeMap;
use std::marker::Model;

/// What literals that share a place have in common.
#[derive(PartialEq, Eq, PartialOrd, Ord, Drop)]
enum Key {
    Number { minus: bool, size: u128 },
    Character(u8),
    Symbol(Text),
    Named(u16),
}

/// Keys, each with the place of the first literal that has it.
type KeyPlaces = BTreeMap<Key, usize>;

/// The key of a literal, if it shares its place with others.
fn key_of(alloc: Global, literal: &Literal) -> Result<Option<Key>, AllocError>
    ensures { IfOk result (IsKeyOf (literal_view literal.now)) }
{
    match literal {
        Literal::Number { minus, size } => Ok(Some(Key::Number {
            minus: *minus,
            size: *size,
        })),
        Literal::Character(byte) => Ok(Some(Key::Character(*byte))),
        Literal::Symbol(text) => Ok(Some(Key::Symbol(text.to_vec(alloc)?))),
        Literal::Named(oop) => Ok(Some(Key::Named(oop.0))),
        Literal::Bytes(_) | Literal::Array(_) | Literal::Owner => Ok(None),
    }
}

/// The place that is noted of a key.
fn noted(places: &KeyPlaces, key: &Key) -> Option<usize>
    ensures { result ≡ noted places.now.entries (key_view key.now) }
{
    places.get(key).copied()
}

/// Puts a literal behind the others, and notes its place.
fn put_noted(
    literals: &mut LiteralList,
    places: &mut KeyPlaces,
    key: Key,
    literal: Literal,
) -> Result<(), AllocError>
    ensures literals { OnOk result (literals.new.items ≡ literals.old.items ++ literal ∷ []) }
    ensures places { OnOk result
        (IsNoted key (length literals.old.items) places.old.entries places.new.entries) }
    ensures same { OnErr result (literals.new.items ≡ literals.old.items) }
    ensures same_places { OnErr result (places.new.entries ≡ places.old.entries) }
{
    let place = literals.len();
    literals.push(literal)?;
    match places.insert(key, place) {
        Ok(_) => Ok(()),
        Err(_) => {
            literals.pop();
            Err(AllocError)
        }
    }
}

/// The literals of a method, in the order of their places.
#[derive(Drop)]
pub struct LiteralTable {
    alloc: Global,
    literals: LiteralList,
    places: KeyPlaces,
}

impl Model for LiteralTable {
    ghost use Rattle.std.specs.Global.{Vec};
    ghost use Rattle.st_emit.specs.declared.literal.Literal.{Literal};
    ghost use Rattle.st_emit.specs.inside.Views.{literals_view};
    ghost use Rattle.st_emit.specs.inside.LiteralPlaces.{IsLiteralIndex};

    ghost Value = { Vec Literal };

    ghost use Rattle.st_emit.specs.contracts.literal.Literal as e;
    ghost use Rattle.std.specs.Coded.{codes};

    ghost coded = { Prim.hlevel (codes, e.the_row.coded) };

    ghost view = { λ t. t.literals };

    ghost invariant = { λ t. IsLiteralIndex (literals_view t.literals.items) t.places.entries };
}

impl LiteralTable {
    /// No literals.
    pub fn new(alloc: Global) -> LiteralTable
        ensures { result.items ≡ [] }
    {
        LiteralTable {
            alloc,
            literals: Vec::new(alloc),
            places: BTreeMap::new(alloc),
        }
    }

    /// How many literals there are.
    pub fn len(&self) -> usize
        ensures { result ≡ length self.now.items }
    {
        self.literals.len()
    }

    /// The place of the first literal that shares one with this.
    pub fn place_of(&self, literal: &Literal) -> Result<Option<usize>, AllocError>
        ensures { IfOk result (λ p.
            p ≡ literal_place (literals_view self.now.items) (literal_view literal.now)) }
    {
        let Some(key) = key_of(self.alloc, literal)? else {
            return Ok(None);
        };
        Ok(noted(&self.places, &key))
    }

    /// Puts a literal behind the others, also where it shares a place.
    pub fn put(&mut self, literal: Literal) -> Result<(), AllocError>
        ensures { OnOk result (self.new.items ≡ self.old.items ++ literal ∷ []) }
    {
        match key_of(self.alloc, &literal)? {
            Some(key) if noted(&self.places, &key).is_none() => put_noted(
                &mut self.literals,
                &mut self.places,
                key,
                literal,
            ),
            _ => {
                self.literals.push(literal)?;
                Ok(())
            }
        }
    }

    /// The literals, in the order of their places.
    pub fn into_list(self) -> LiteralList
        ensures { result.items ≡ self.items }
    {
        self.literals
    }
}
