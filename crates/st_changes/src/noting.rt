// Noting definitions in an index, by their classes, sides and selectors.
ghost use Rattle.std.specs.Prelude.{◌≡◌, ◌≤◌, ◌++◌, ◌∷◌, [], ℕ, Bool, List, All, IfOk, OnOk, length};
ghost use Rattle.std.specs.Option.{option_map};
ghost use Rattle.st_chunk.specs.Definitions.{Definition as Defined, IsDefinition};
ghost use Rattle.st_changes.specs.{inside.IndexStates.{found, HasName}, inside.Views.{definition_of, definitions_of}};
ghost use Rattle.st_changes.specs.{inside.Prepared.IsPrepared, Last.{Answers, FindsSelector, FindsLast}};

use crate::Definition;
use crate::index::Index;
use crate::selector::find_selector;
use st_scan::Text;
use std::alloc::{AllocError, Global};

/// Takes the memory that noting a definition needs, of this selector, or of none where its text means no tree.
pub(crate) fn prepare(
    alloc: Global,
    index: &mut Index,
    definition: &Definition,
    selector: &Option<Text>,
) -> Result<(), AllocError>
    requires { FindsSelector (definition_of definition.now).text (option_map (λ v. v.items) selector.now) }
    ensures prepared { OnOk result
        (IsPrepared index.new (definition_of definition.now) (option_map (λ v. v.items) selector.now)) }
    ensures same { (c : List ℕ) (m : Bool) (s : List ℕ) → found index.new c m s ≡ found index.old c m s }
    ensures keeps { (n : List ℕ) → HasName index.old n → HasName index.new n }
    ensures room { index.old.room ≤ index.new.room }
{
    if let Some(name) = selector {
        index.reserve(alloc, &definition.class, name)?;
    }
    Ok(())
}

/// Notes a definition, whose number is that of those that are noted. It takes no memory.
pub(crate) fn note(
    index: &mut Index,
    definition: &Definition,
    selector: &Option<Text>,
    number: usize,
)
    requires { IsPrepared index.old (definition_of definition.now) (option_map (λ v. v.items) selector.now) }
    ensures { (ds : List Defined) → Answers ds (found index.old) → number ≡ length ds
        → Answers (ds ++ definition_of definition.now ∷ []) (found index.new) }
{
    if let Some(selector) = selector {
        index.note(&definition.class, definition.meta, selector, number);
    }
}

/// Indexes one definition more, of this number and this selector, or of none where its text means no tree.
fn add(
    alloc: Global,
    index: &mut Index,
    definition: &Definition,
    selector: &Option<Text>,
    number: usize,
) -> Result<(), AllocError>
    requires { FindsSelector (definition_of definition.now).text (option_map (λ v. v.items) selector.now) }
    ensures { OnOk result ((ds : List Defined) → Answers ds (found index.old) → number ≡ length ds
        → Answers (ds ++ definition_of definition.now ∷ []) (found index.new)) }
{
    prepare(alloc, index, definition, selector)?;
    note(index, definition, selector, number);
    Ok(())
}

/// Indexes definitions whose selectors aren't known, so that each text is parsed.
fn index_parsed(alloc: Global, listed: &[Definition]) -> Result<Index, AllocError>
    requires { All IsDefinition (definitions_of listed.now) }
    ensures { IfOk result (λ index. Answers (definitions_of listed.now) (found index)) }
{
    let mut index = Index::new(alloc);
    for (number, definition) in listed.iter().enumerate() {
        let selector = find_selector(alloc, &definition.text)?;
        add(alloc, &mut index, definition, &selector, number)?;
    }
    Ok(index)
}

/// The index of the definitions that a changes file lists: of the last ones by these selectors, of those before them by their
/// texts, which are parsed.
pub(crate) fn index_all(
    alloc: Global,
    listed: &[Definition],
    selectors: &[Option<Text>],
) -> Result<Index, AllocError>
    requires good { All IsDefinition (definitions_of listed.now) }
    requires finds { FindsLast (definitions_of listed.now) selectors.now }
    ensures { IfOk result (λ index. Answers (definitions_of listed.now) (found index)) }
{
    let front = listed.len() - selectors.len();
    let mut index = index_parsed(alloc, &listed[..front])?;
    for (i, selector) in selectors.iter().enumerate() {
        add(alloc, &mut index, &listed[front + i], selector, front + i)?;
    }
    Ok(index)
}
