ghost use Rattle.std.specs.Prelude.{◌<◌};

use st_model::Word;

/// A message that is sent.
#[derive(Clone, Copy)]
pub struct Sent {
    /// The class where the search for its method begins.
    pub class: Word,
    /// Its selector.
    pub selector: Word,
    /// How many arguments it has.
    pub arguments: u32,
    pub ghost few: { arguments < 16384 },
}
