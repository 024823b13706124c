// What the first objects are.
ghost use Rattle.std.specs.Prelude.{◌≡◌};
ghost use Rattle.st_first_objects.specs.Things.{only, named, numbered, within, class, symbol, is};
ghost use Rattle.st_first_objects.specs.inside.Views.{thing_of};

/// What an object is.
#[derive(Clone, Copy, Debug, PartialEq, Eq, Hash)]
pub enum What {
    Nil,
    False,
    True,
    /// The association of the scheduler.
    SchedulerAssociation,
    /// The Array of special selectors.
    Selectors,
    /// The Array of all Characters.
    Characters,
    Character,
    /// The association of the symbol table.
    Symbols,
    /// An Array of the symbol table.
    SymbolTable,
    /// The global Array.
    Globals,
    Class,
    Metaclass,
    /// The method dictionary of a class.
    Dictionary,
    /// The Array of methods of a class.
    Methods,
    /// The method dictionary of a metaclass.
    MetaDictionary,
    /// The Array of methods of a metaclass.
    MetaMethods,
    Symbol,
    /// The Array of the names of a class's variables.
    Names,
    /// The name of a variable.
    Variable,
    /// The Array of a class's class variables.
    Pool,
    /// The association of a class variable.
    Shared,
    /// The association of a class or a global.
    Global,
    Scheduler,
    /// The Array of the scheduler's lists.
    Lists,
    List,
}

/// Which object it is: what, of which name, and which of that name, where there are several.
#[derive(Clone, Copy, Debug, PartialEq, Eq, Hash)]
pub struct Thing<'a> {
    pub what: What,
    pub name: &'a [u8],
    pub number: usize,
}

impl<'a> Thing<'a> {
    /// The only one of its kind.
    pub(crate) fn only(what: What) -> Thing<'a>
        ensures { thing_of result ≡ only what }
    {
        Thing {
            what,
            name: b"",
            number: 0,
        }
    }

    /// That of a name.
    pub(crate) fn named(what: What, name: &'a [u8]) -> Thing<'a>
        ensures { thing_of result ≡ named what name.now }
    {
        Thing {
            what,
            name,
            number: 0,
        }
    }

    /// That of a number.
    pub(crate) fn numbered(what: What, number: usize) -> Thing<'a>
        ensures { thing_of result ≡ numbered what number }
    {
        Thing {
            what,
            name: b"",
            number,
        }
    }

    /// That of a name in the part of a number.
    pub(crate) fn within(what: What, number: usize, name: &'a [u8]) -> Thing<'a>
        ensures { thing_of result ≡ within what number name.now }
    {
        Thing { what, name, number }
    }

    /// The class of a name.
    pub(crate) fn class(name: &'a [u8]) -> Thing<'a>
        ensures { thing_of result ≡ class name.now }
    {
        Thing::named(What::Class, name)
    }

    /// The Symbol of a name.
    pub(crate) fn symbol(name: &'a [u8]) -> Thing<'a>
        ensures { thing_of result ≡ symbol name.now }
    {
        Thing::named(What::Symbol, name)
    }

    /// Whether it is that.
    pub(crate) fn is(&self, what: What) -> bool
        ensures { result ≡ is what (thing_of self.now) }
    {
        self.what == what
    }
}
