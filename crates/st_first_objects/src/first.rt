// The memory of the first objects.
ghost use Rattle.std.specs.Prelude.{◌≡◌, ◌≤◌, false, true, OnOk, IfOk, IfErr};
ghost use Rattle.st_model.specs.Limits.{most_words};
ghost use Rattle.st_kernel_text.specs.inside.Views.{account_of};
ghost use Rattle.st_first_objects.specs.declared.unmade.Unmade.TheVariants.{NoRoom};
ghost use Rattle.st_first_objects.specs.First.{first_view, has_room};
ghost use Rattle.st_first_objects.specs.inside.Placing.{IsBegun, PlacesAll, HasWords};

use crate::placing::{place_content, pointer, pointer_at};
use crate::plan::FirstObjects;
use crate::thing::{Thing, What};
use crate::unmade::Unmade;
use st_kernel_text::Kernel;
use st_memory::Loader;
use st_model::{Demand, MOST_WORDS};
use std::alloc::Global;

/// The most words that an object has.
const MOST_OF_ONE: usize = 65535;

/// The most objects.
const MOST_ENTRIES: u32 = 32767;

/// How many words are used with so many more, if there is room for an object that takes them.
fn used_beside(used: u32, words: usize) -> Result<u32, Unmade>
    requires { used ≤ most_words }
    ensures { HasWords used words result }
{
    if words > MOST_OF_ONE || words > (MOST_WORDS - used) as usize {
        return Err(Unmade::NoRoom);
    }
    Ok(used + words as u32)
}

/// Places the objects of all things.
fn place_all<L: Loader>(
    alloc: Global,
    loader: &mut L,
    plan: &FirstObjects<'_>,
) -> Result<(), Unmade>
    requires { IsBegun plan.now (L.loaded loader.old) }
    ensures { PlacesAll plan.now (L.loaded loader.old) (L.loaded loader.new) result }
{
    let mut used = 0;
    for i in 0..plan.count() {
        let content = plan.content(alloc, plan.thing(i))?;
        match used_beside(used, content.words()) {
            Ok(all) => used = all,
            Err(unmade) => return Err(unmade),
        }
        place_content(loader, plan, pointer_at(i), &content);
    }
    Ok(())
}

/// A memory of the first objects of a text, as far as it was read.
pub fn make_first<L: Loader>(alloc: Global, kernel: &Kernel) -> Result<L::Done, Unmade>
    ensures made { IfOk result (λ done. L.Done.view done ≡ first_view (account_of kernel.now)) }
    ensures room { OnOk result (has_room (account_of kernel.now) ≡ true) }
    ensures refused { IfErr result (λ unmade. unmade ≡ NoRoom → has_room (account_of kernel.now) ≡ false) }
{
    let plan = match FirstObjects::of(alloc, kernel) {
        Ok(plan) => plan,
        Err(unmade) => return Err(unmade),
    };
    let capacity = Demand {
        entries: MOST_ENTRIES,
        words: MOST_WORDS,
    };
    let globals = pointer(&plan, &Thing::only(What::Globals));
    let symbols = pointer(&plan, &Thing::only(What::Symbols));
    let mut loader = L::begin(alloc, capacity, globals, symbols)?;
    match place_all(alloc, &mut loader, &plan) {
        Ok(()) => Ok(loader.finish()),
        Err(unmade) => Err(unmade),
    }
}
