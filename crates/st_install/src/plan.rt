//! What the installation of a method makes and stores, once there is room for it.

use st_model::{Kind, Oop};

/// What a method belongs to: the global association of its class, the class, and whether that is the class side.
#[derive(Clone, Copy)]
pub(crate) struct Owner {
    pub association: Oop,
    /// The class, or on the class side its metaclass.
    pub class: Oop,
    pub meta: bool,
}

/// A value that is there, or the object of this number among those that are made, counted from 0.
#[derive(Clone, Copy)]
pub(crate) enum PlannedValue {
    There(Oop),
    Made(u32),
}

/// An object that is made: its class, its kind, its fields (of a Method the header and the literals) and its bytes.
#[derive(Drop)]
pub(crate) struct NewObject {
    pub class: Oop,
    pub kind: Kind,
    pub fields: Vec<PlannedValue>,
    pub bytes: Vec<u8>,
}

/// A value that goes into a field of the symbol table.
#[derive(Clone, Copy)]
pub(crate) struct SymbolStore {
    pub object: PlannedValue,
    pub field: u32,
    pub value: PlannedValue,
}

/// What an installation makes and stores, with room for the pointers of what it makes.
#[derive(Drop)]
pub struct Ready {
    /// All objects, in the order in which they are made.
    pub(crate) objects: Vec<NewObject>,
    /// The stores into the symbol table, in their order.
    pub(crate) symbol_stores: Vec<SymbolStore>,
    pub(crate) selector: PlannedValue,
    pub(crate) method: PlannedValue,
    pub(crate) class: Oop,
    /// The class's method dictionary.
    pub(crate) dictionary: Oop,
    /// The number of the dictionary that takes its place, where it grows.
    pub(crate) grown: Option<u32>,
    /// As many pointers as there are objects; any, until these are made.
    pub(crate) made: Vec<Oop>,
}
