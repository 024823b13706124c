// Installing the definitions again that a store keeps.
ghost use Rattle.std.specs.Prelude.{◌≡◌, ◌≤◌, ◌<◌, ◌+◌, ◌-◌, ◌^◌, length, All, IfOk, OnOk};
ghost use Rattle.std.specs.Option.{option_map};
ghost use Rattle.st_model.specs.{Machine.{State, World}, Births.Births, Show.Shows};
ghost use Rattle.st_frames.specs.{declared.frame.Frame.Frame, inside.Shown.{IsReady, shown}};
ghost use Rattle.st_chunk.specs.{Definitions.IsDefinition, inside.ScriptDefinitions.definition_of};
ghost use Rattle.st_protocol.specs.inside.Installations.{InstallsAs, Unchanged};
ghost use Rattle.st_install.specs.Defining.{installed};
ghost use Rattle.st_changes.specs.inside.Views.{definition_of as kept_definition, definitions_of};
ghost use Rattle.st_changes.specs.Last.{FindsSelector, FindsEach};
ghost use Rattle.st_recover.specs.Replays.{replay};
ghost use Rattle.st_recover.specs.inside.Replayings.{ReplaysAs, Notes};

use crate::opened::{Lost, LostList};
use st_changes::{Definition as KeptDefinition, find_selector};
use st_chunk::LentDefinition;
use st_install::{Unprepared, carry_out, prepare};
use st_memory::Memory;
use st_protocol::Installation;
use st_scan::Text;
use std::alloc::{AllocError, Global};

/// What comes of definitions that are installed again.
#[derive(Drop)]
pub(crate) struct Replay {
    /// How many were installed.
    pub(crate) count: u32,
    /// Those that weren't.
    pub(crate) lost: LostList,
}

/// Of each of some definitions the selector of its text, or none where that means no tree.
pub(crate) type SelectorList = Vec<Option<Text>>;

/// What came of a definition, and the selector of its text, or none where that means no tree.
#[derive(Drop)]
struct Attempt {
    installation: Installation,
    selector: Option<Text>,
}

/// A definition, lent to what installs it.
fn lend(definition: &KeptDefinition) -> LentDefinition<'_>
    ensures { definition_of result ≡ kept_definition definition.now }
{
    LentDefinition {
        class: definition.class.as_slice(),
        meta: definition.meta,
        category: definition.category.as_slice(),
        text: definition.text.as_slice(),
    }
}

/// Installs a definition, or says why it isn't installed, and finds its selector. Where the definition is refused, its text is parsed
/// for that.
fn install_one<M: Memory>(
    alloc: Global,
    m: &mut M,
    definition: &KeptDefinition,
) -> Result<Attempt, AllocError>
    requires good { IsDefinition (kept_definition definition.now) }
    ensures installs { IfOk result (λ a. (f : Frame) (w : World) (s : State Births)
        → IsReady (M.view m.old) f w → Shows (shown (M.view m.old) f w) s
        → InstallsAs (installed (kept_definition definition.now) s) a.installation
        (shown (M.view m.new) f w)) }
    ensures refused { IfOk result (λ a. Unchanged a.installation (M.view m.old) (M.view m.new)) }
    ensures finds { IfOk result (λ a. FindsSelector (kept_definition definition.now).text
        (option_map (λ v. v.items) a.selector)) }
    ensures ready { (f : Frame) (w : World) → IsReady (M.view m.old) f w → IsReady (M.view m.new) f w }
{
    match prepare(alloc, m, &lend(definition)) {
        Ok(prepared) => {
            let selector = prepared.selector.to_vec(alloc)?;
            Ok(Attempt {
                installation: Installation::Accepted(carry_out(m, prepared)),
                selector: Some(selector),
            })
        }
        Err(Unprepared::Refused(why)) => Ok(Attempt {
            installation: Installation::Refused(why),
            selector: find_selector(alloc, &definition.text)?,
        }),
        Err(Unprepared::OutOfMemory) => Err(AllocError),
    }
}

/// Notes what came of the definition of this number: it is counted, or lost.
fn note(replay: &mut Replay, number: u32, installation: Installation) -> Result<(), AllocError>
    requires room { replay.old.count < 2 ^ 32 - 1 }
    ensures { OnOk result (Notes number installation replay.old replay.new) }
{
    match installation {
        Installation::Accepted(_selector) => replay.count += 1,
        Installation::Refused(why) => replay.lost.push(Lost { number, why })?,
        Installation::OutOfMemory => return Err(AllocError),
    }
    Ok(())
}

/// Installs definitions, behind so many in the changes file. Each is installed, or listed with its number and why it is refused.
/// Answers also the selector of each.
pub(crate) fn replay_all<M: Memory>(
    alloc: Global,
    m: &mut M,
    definitions: &[KeptDefinition],
    before: u32,
) -> Result<(Replay, SelectorList), AllocError>
    requires good { All IsDefinition (definitions_of definitions.now) }
    requires numbers { before + length definitions.now ≤ 2 ^ 32 - 1 }
    ensures replays { IfOk result (λ r. (f : Frame) (w : World) (s : State Births)
        → IsReady (M.view m.old) f w → Shows (shown (M.view m.old) f w) s
        → ReplaysAs (replay installed s before (definitions_of definitions.now)) r.0
        (shown (M.view m.new) f w)) }
    ensures few { IfOk result (λ r. length r.0.lost.items < 2 ^ 32) }
    ensures finds { IfOk result (λ r. FindsEach (definitions_of definitions.now) r.1.items) }
    ensures ready { (f : Frame) (w : World) → IsReady (M.view m.old) f w → IsReady (M.view m.new) f w }
{
    let mut replay = Replay {
        count: 0,
        lost: Vec::new(alloc),
    };
    let mut selectors = Vec::new(alloc);
    let mut number = before;
    let mut rest = definitions;
    while let [definition, later @ ..] = rest {
        number += 1;
        let attempt = install_one(alloc, m, definition)?;
        note(&mut replay, number, attempt.installation)?;
        selectors.push(attempt.selector)?;
        rest = later;
    }
    Ok((replay, selectors))
}
