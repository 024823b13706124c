// A store that was opened.
ghost use Rattle.std.specs.Prelude.{◌<◌, ◌^◌, length};
ghost use Rattle.st_recover.specs.inside.{Archives.IsListOf, Props.IsListOf-prop};

use st_changes::{Changes, Listing};
use st_frames::Loaded;
use st_protocol::Refusal;
use st_store::Store;

/// A definition that wasn't installed again.
#[derive(Clone, Copy, Debug, PartialEq, Eq)]
pub struct Lost {
    /// Its number in the changes file, counted from 1.
    pub number: u32,
    /// Why it was refused.
    pub why: Refusal,
}

/// The definitions that were lost, in their order.
pub type LostList = Vec<Lost>;

/// A store, with its image's objects and registers and its definitions, before any of these is installed.
#[derive(Drop)]
pub(crate) struct Fetched<M> {
    pub(crate) loaded: Loaded<M>,
    pub(crate) store: Store,
    pub(crate) changes: Listing,
    pub(crate) ghost list_of: { IsListOf store changes } by { IsListOf-prop store changes },
}

/// A store that was opened.
#[derive(Drop)]
pub struct Opened<M> {
    /// Its image's objects and registers, with the definitions from its base on installed.
    pub loaded: Loaded<M>,
    /// The store.
    pub store: Store,
    /// The definitions of its changes file.
    pub changes: Changes,
    /// How many definitions were installed again.
    pub replayed: u32,
    /// Those that weren't.
    pub lost: LostList,
    pub ghost list_of: { IsListOf store changes } by { IsListOf-prop store changes },
    pub ghost few: { length lost.items < 2 ^ 32 },
}
