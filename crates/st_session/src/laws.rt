//! Laws of the definitions.

ghost use Rattle.std.specs.Prelude.{◌≡◌, ℕ, List, IsTrue};
ghost use Rattle.st_image.specs.declared.head.HeadValues.{HeadValues};
ghost use Rattle.st_model.specs.View.{View};
ghost use Rattle.st_chunk.specs.{Asks.Side, Definitions.Definition};
ghost use Rattle.st_install.specs.Defining.{installed};
ghost use Rattle.st_protocol.specs.{Acknowledged.AcknowledgesEach, Courses.deeds_of};
ghost use Rattle.st_recover.specs.{Commits.{Commit, all_of}, Condensed.IsCondensed, Replays.Loss};
ghost use Rattle.st_browse.specs.inside.MadeTexts.{IsShown};
ghost use Rattle.st_session.specs.declared.making.Origin.TheVariants.{Image as FromImage, Kernel as FromKernel};
ghost use Rattle.st_session.specs.{Builds.{Builds, IsWrongKernel}, Imports.{ReadsAs, IsWrongImage}};
ghost use Rattle.st_session.specs.inside.Joining.{RestJoins, ReadyJoins, FailedJoins, MadeJoins, SessionJoins, FollowedJoins};
ghost use Rattle.st_session.specs.inside.Joining.{RefusedJoins, ExportJoins, CondenseJoins, MakingJoins, BegunJoins};
ghost use Rattle.st_session.specs.inside.OneOpening.{OneAnswer, OpensGives, RefusedIs, FollowedIs, StaysIs};
ghost use Rattle.st_session.specs.{Keeping.in_a_store, Points.Point, inside.ScriptGroups.GroupsByBytes};
ghost use Rattle.st_session.specs.Sessions.{session as session_over};
ghost use Rattle.st_session.specs.{Reports.RunIsSaid, Sources.shown_text, inside.Traces.TraceIsRun};

use st_host::Host;

/// What is said of cycles, one after the other, is what is said where their run ends, by the number that are finished, whatever is
/// shown of a machine then.
pub fn run_is_said()
    ensures { RunIsSaid }
{}

/// Watching changes nothing: a line that traces a run does what the run does, in the same order and to the same state, and its own
/// lines say, in order, the contexts and the bytecodes of the run's cycles.
pub fn trace_is_run()
    ensures { TraceIsRun }
{}

/// In a script a group of methods asks for a definition of each, in order, below the group's header, and behind the chunk of blanks that
/// closes it a line begins. What is asked for is that of the chunks, wherever their bytes end.
pub fn groups_by_bytes()
    ensures { GroupsByBytes }
{}

/// A session acknowledges each commit by the line that it replies next, and no other line acknowledges one.
pub fn commits_are_acknowledged()
    ensures { (replayed : ℕ) (lost : List Loss) (p : Point Commit) (script : List ℕ)
        → AcknowledgesEach (deeds_of (session_over in_a_store installed replayed lost p script)) }
{}

/// The text that a session shows of a method is that of its last definition, or else one that has the method's code, under the names that
/// it sees; there is none exactly where no text has.
pub fn made_texts_have_the_code()
    ensures { (v : View) (ds : List Definition) (side : Side) (selector : List ℕ)
        → IsShown v ds side selector (shown_text v ds side selector) }
{}

/// A condensed store shows the same text of each method, or none as before.
pub fn condensing_keeps_texts()
    ensures { (v : View) (c d : Commit) (side : Side) (selector : List ℕ) → IsCondensed c d
        → shown_text v (all_of d) side selector ≡ shown_text v (all_of c) side selector }
{}

/// What a call leaves meets what the next call asks for as it begins: if it left the store at rest, and no stop came; and after a stop
/// at any moment of it, over whatever host. The call is a session that kept its promise, or one over a store that wasn't at rest, from
/// its opening on; a refused opening; an export or a condense; or the making of a store, whole once it was said that it is made. Each
/// root that a stop may leave chosen names what is firm if the store was left at rest, or the gate failed, or a store was made.
pub fn calls_join<H: Host, N: Host>()
    ensures rest { RestJoins H.Host.own }
    ensures ready { ReadyJoins H.Host.own }
    ensures failed { FailedJoins H.Host.own }
    ensures import_made { (over : HeadValues) (image : List ℕ) → MadeJoins H.Host.own FromImage
        (ReadsAs over image) (IsWrongImage (IsTrue H.is_told) over image) }
    ensures build_made { (text : List ℕ) → MadeJoins H.Host.own FromKernel
        (Builds text) (IsWrongKernel (IsTrue H.is_told) text) }
    ensures session { SessionJoins H.Host.own N.Host.own }
    ensures followed { FollowedJoins H.Host.own N.Host.own }
    ensures refused { RefusedJoins H.Host.own N.Host.own }
    ensures export { ExportJoins H.Host.own N.Host.own }
    ensures condense { CondenseJoins H.Host.own N.Host.own }
    ensures import { (over : HeadValues) (image : List ℕ) → MakingJoins H.Host.own N.Host.own FromImage
        (ReadsAs over image) (IsWrongImage (IsTrue H.is_told) over image) }
    ensures build { (text : List ℕ) → MakingJoins H.Host.own N.Host.own FromKernel
        (Builds text) (IsWrongKernel (IsTrue H.is_told) text) }
    ensures import_begun { (over : HeadValues) (image : List ℕ) → BegunJoins H.Host.own N.Host.own FromImage
        (ReadsAs over image) (IsWrongImage (IsTrue H.is_told) over image) }
    ensures build_begun { (text : List ℕ) → BegunJoins H.Host.own N.Host.own FromKernel
        (Builds text) (IsWrongKernel (IsTrue H.is_told) text) }
{}

/// What the files of a name open as is one answer, a commit with what it comes to or a refusal: of any two answers, of what opens as a
/// commit, and of what is said of a store that isn't opened, of one that a session goes over, and of one that is only read.
pub fn one_opening<H: Host>()
    ensures one { OneAnswer }
    ensures gives { OpensGives }
    ensures refused { RefusedIs H.Host.own }
    ensures followed { FollowedIs H.Host.own }
    ensures stays { StaysIs H.Host.own }
{}
