use st_model::Demand;

/// Why a definition isn't installed. A place counts the bytes of the method's text from 1, and 0 is the method as a whole.
#[derive(Clone, Copy, Debug, PartialEq, Eq)]
pub enum Refusal {
    /// The text is no method.
    Syntax { place: u32, cause: u8 },
    /// The method has no code.
    Code { place: u32, cause: u8 },
    /// The image has no class of this name.
    NoClass,
    /// The image names no table of globals.
    NoGlobals,
    /// The objects that would be made have no room.
    NoRoom { demand: Demand },
    /// The class, or what the definition takes besides, has another shape.
    Shape,
}
