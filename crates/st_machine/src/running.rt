ghost use Rattle.std.specs.Prelude.{◌≡◌, ◌<◌, None};
ghost use Rattle.st_frames.specs.inside.Shown.{IsReady, shown};
ghost use Rattle.st_machine.specs.inside.Runs.{EndsFrom, CountsCycles, run_end, death_of};

use crate::cycling::CycleEnd;
use crate::ending::RunEnd;
use crate::stride::advance;
use st_frames::{Frame, World};
use st_memory::Memory;
use st_model::{Dead, Outcome};

/// The end of the run whose cycle after so many ended so; none where the run goes on.
fn run_end(end: Result<CycleEnd, Dead>, done: u32) -> Option<RunEnd>
    requires { done < 4294967295 }
    ensures { result ≡ run_end end done }
{
    let finished = done + 1;
    match end {
        Ok(CycleEnd::With(Outcome::Went)) => None,
        Ok(CycleEnd::With(Outcome::Snapshot)) => Some(RunEnd::Snapshot { done: finished }),
        Ok(CycleEnd::With(Outcome::Say(object))) => Some(RunEnd::Say {
            done: finished,
            object,
        }),
        Ok(CycleEnd::With(Outcome::Quit)) => Some(RunEnd::Quit { done: finished }),
        Ok(CycleEnd::With(Outcome::Debugger)) => Some(RunEnd::Debugger { done: finished }),
        Ok(CycleEnd::Space { demand, left }) => Some(RunEnd::Space {
            done,
            demand,
            entries_left: left.entries,
            words_left: left.words,
        }),
        Err(cause) => Some(RunEnd::Dead { done, cause }),
    }
}

/// Does n cycles, or those up to the first that doesn't go on. It ends as the book's machine does from each state over
/// births that is shown here.
pub fn run<M: Memory>(m: &mut M, f: &mut Frame, w: &mut World, n: u32) -> RunEnd
    requires ready { IsReady (M.view m.old) f.old w.old }
    ensures ends { EndsFrom n (shown (M.view m.old) f.old w.old)
        result (shown (M.view m.new) f.new w.new) }
    ensures ready { death_of result ≡ None → IsReady (M.view m.new) f.new w.new }
    ensures counts { CountsCycles n result }
{
    let mut done = 0;
    'cycles: while done < n {
        let next = advance(m, f, w, n - done);
        let before = done + next.before;
        if let Some(end) = run_end(next.end, before) {
            return end;
        }
        done = before + 1;
    }
    RunEnd::Ran
}
