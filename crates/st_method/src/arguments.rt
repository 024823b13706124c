ghost use Rattle.std.specs.Prelude.{◌≡◌};
ghost use Rattle.st_model.specs.Values.{word};
ghost use Rattle.st_model.specs.Table.{Table};
ghost use Rattle.st_model.specs.Methods.{extension_arguments, arguments_by_extension, arguments_by, method_arguments};
ghost use Rattle.st_model.specs.inside.Calls.{Reads, itself};

use crate::header::Header;
use st_memory::Objects;
use st_model::{Dead, Word};

/// The number of arguments that a header extension names.
#[tactic(auto, using(crate::proofs::Bits::arguments), unfolding(st_model::specs::Methods::extension_arguments))]
fn extension_arguments(extension: Word) -> Result<u32, Dead>
    ensures { (t : Table) → Reads (extension_arguments (word extension)) itself t result }
{
    if extension.is_small() {
        Ok(extension.0 / 2 / 256 % 32)
    } else {
        Err(Dead::NotSmall)
    }
}

/// How many arguments a method of this flag takes.
#[tactic(auto, using(st_model::proofs::Runs::runs), unfolding(st_model::specs::Methods::arguments_by, st_model::specs::Methods::arguments_by_extension))]
fn arguments_by<O: Objects>(m: &O, method: Word, flag: u32) -> Result<u32, Dead>
    ensures { Reads (arguments_by O.names (word method) flag) itself (O.table m.now) result }
{
    if flag == 7 {
        return extension_arguments(m.literal_from_last(method, 1)?);
    }
    if flag < 5 { Ok(flag) } else { Ok(0) }
}

/// How many arguments a method takes. Dead where it is no method, or its flag is 7 and its next to last literal no SmallInteger.
#[tactic(auto, using(st_model::proofs::Runs::runs), unfolding(st_model::specs::Methods::method_arguments))]
pub fn method_arguments<O: Objects>(m: &O, method: Word) -> Result<u32, Dead>
    ensures { Reads (method_arguments O.names (word method)) itself (O.table m.now) result }
{
    let header = Header(m.method_header(method)?);
    arguments_by(m, method, header.flag())
}
