// What is declared so far.
ghost use Rattle.std.specs.{Prelude.{◌≡◌, ◌+◌, false, length, Ok}, List.list_all};
ghost use Rattle.st_kernel_text.specs.Known.{nothing, is_known, inherited, most_fields, with_name, with_layout, with_inherited};
ghost use Rattle.st_kernel_text.specs.Known.{with_class, with_more, with_shared, with_pool, with_global, fits, has_class, has_all, complete, if_known, known_behind};
ghost use Rattle.st_kernel_text.specs.{inside.Views.{class_of, pool_of, part_of}, inside.Lists.{names_now, needs_of, texts_of}};
ghost use Rattle.st_kernel_text.specs.inside.Reading.{Declares};

use crate::cause::{Cause, Stop};
use crate::declarations::Declarations;
use crate::named::{Layout, Named};
use crate::needs::{NEEDS, Need};
use crate::part::{Class, Part, Pool, Text};
use crate::place::ChunkPlace;
use crate::shape::Shape;
use crate::variables::Variables;
use std::alloc::Global;
use std::marker::Model;

/// The most fields that an instance of this shape has.
fn most_fields(shape: Shape) -> usize
    ensures { result ≡ most_fields shape }
{
    match shape {
        Shape::Fixed | Shape::Indexed => 64,
        Shape::Words | Shape::Bytes => 0,
    }
}

/// How many fields a class has in all that has these variables and inherits so many.
#[tactic(auto, using(crate::proofs::Listed::texts_long))]
fn fields_below(inherited: u8, variables: &[Text]) -> usize
    ensures { result ≡ inherited + length (texts_of variables.now) }
{
    usize::from(inherited) + variables.len()
}

/// The layout of a class with these class variables more.
#[tactic(auto, using(crate::proofs::Listed::texts_long))]
fn with_more(layout: Layout, variables: &[Text]) -> Layout
    ensures { result ≡ with_more layout (length (texts_of variables.now)) }
{
    Layout {
        shares: layout.shares || variables.len() > 0,
        ..layout
    }
}

/// Whether a class is as it is wanted.
fn fits(wanted: Option<(Shape, u8)>, layout: Layout) -> bool
    ensures { result ≡ fits wanted layout }
{
    match wanted {
        None => true,
        Some((shape, fields)) => shape == layout.shape && fields == layout.fields,
    }
}

/// What is declared so far.
#[derive(Drop)]
pub(crate) struct Known {
    pub(crate) names: Declarations,
    fields: Variables,
    shared: Variables,
}

impl Model for Known {
    ghost use Rattle.st_kernel_text.specs.Known.{Known};

    ghost Value = { Known };

    ghost view = { λ k. record { names = k.names; fields = k.fields; shared = k.shared } };
}

impl Known {
    /// Nothing is declared.
    pub(crate) fn new(alloc: Global) -> Known
        ensures { result ≡ nothing }
    {
        Known {
            names: Declarations::new(alloc),
            fields: Variables::new(alloc),
            shared: Variables::new(alloc),
        }
    }

    /// How many fields a class inherits from this superclass, or from none, where it is `nil`.
    fn inherited(&self, above: &[u8]) -> Option<u8>
        ensures { result ≡ inherited self.now above.now }
    {
        if above == b"nil".as_slice() {
            return Some(0);
        }
        Some(self.names.layout(above)?.fields)
    }

    /// A name is that of something.
    fn add_name(&mut self, alloc: Global, name: &[u8], named: Named) -> Result<(), Stop>
        ensures { Declares (Ok (with_name self.old name.now named)) self.old self.new result }
    {
        self.names.set(alloc, name, named)?;
        Ok(())
    }

    /// A class is declared, by the part of this number, whose instances have so many fields.
    fn add_layout(
        &mut self,
        alloc: Global,
        number: usize,
        class: &Class,
        fields: usize,
    ) -> Result<(), Stop>
        ensures { Declares (with_layout self.old number (class_of class.now) fields self.old.fields)
            self.old self.new result }
    {
        if fields > most_fields(class.shape) {
            return Err(Stop::At(Cause::Variables));
        }
        let layout = Layout {
            number,
            shape: class.shape,
            fields: fields as u8,
            shares: false,
        };
        self.add_name(alloc, &class.name, Named::Class(layout))
    }

    /// A class is declared, by the part of this number, whose superclass has so many fields.
    fn add_below(
        &mut self,
        alloc: Global,
        number: usize,
        class: &Class,
        inherited: u8,
    ) -> Result<(), Stop>
        ensures { Declares (with_inherited self.old number (class_of class.now) inherited)
            self.old self.new result }
    {
        self.fields.declare(alloc, number, &class.variables)?;
        self.add_layout(
            alloc,
            number,
            class,
            fields_below(inherited, &class.variables),
        )
    }

    /// A class is declared, by the part of this number.
    fn add_class(&mut self, alloc: Global, number: usize, class: &Class) -> Result<(), Stop>
        ensures { Declares (with_class self.old number (class_of class.now)) self.old self.new result }
    {
        if self.names.named(&class.name).is_some() {
            return Err(Stop::At(Cause::Name));
        }
        match self.inherited(&class.above) {
            Some(inherited) => self.add_below(alloc, number, class, inherited),
            None => Err(Stop::At(Cause::Name)),
        }
    }

    /// Class variables are declared of the class with this layout.
    fn add_shared(&mut self, alloc: Global, pool: &Pool, layout: Layout) -> Result<(), Stop>
        ensures { Declares (with_shared self.old (pool_of pool.now) layout) self.old self.new result }
    {
        self.shared.declare(alloc, layout.number, &pool.variables)?;
        let more = with_more(layout, &pool.variables);
        self.add_name(alloc, &pool.class, Named::Class(more))
    }

    /// Class variables are declared.
    fn add_pool(&mut self, alloc: Global, pool: &Pool) -> Result<(), Stop>
        ensures { Declares (with_pool self.old (pool_of pool.now)) self.old self.new result }
    {
        match self.names.layout(&pool.class) {
            Some(layout) => self.add_shared(alloc, pool, layout),
            None => Err(Stop::At(Cause::Name)),
        }
    }

    /// A global is declared.
    fn add_global(&mut self, alloc: Global, name: &[u8]) -> Result<(), Stop>
        ensures { Declares (with_global self.old name.now) self.old self.new result }
    {
        if self.names.named(name).is_some() {
            return Err(Stop::At(Cause::Name));
        }
        self.add_name(alloc, name, Named::Global)
    }

    /// Whether the class of this name is declared as it is wanted.
    fn has_class(&self, wanted: Option<(Shape, u8)>, name: &[u8]) -> bool
        ensures { result ≡ has_class self.now wanted name.now }
    {
        match self.names.layout(name) {
            Some(layout) => fits(wanted, layout),
            None => false,
        }
    }

    /// Whether the classes of these names are declared as they are wanted.
    fn has_classes(&self, wanted: Option<(Shape, u8)>, names: &[&[u8]]) -> bool
        ensures { result ≡ list_all (has_class self.now wanted) (names_now names.now) }
    {
        for name in names {
            if !self.has_class(wanted, name) {
                return false;
            }
        }
        true
    }

    /// Whether all that is needed is declared.
    fn has_all(&self, needs: &[Need]) -> bool
        ensures { result ≡ has_all self.now (needs_of needs.now) }
    {
        for (wanted, names) in needs {
            if !self.has_classes(*wanted, names) {
                return false;
            }
        }
        true
    }

    /// The needed classes are declared, where the declarations end.
    fn check_complete(&self, place: ChunkPlace) -> Result<(), Stop>
        ensures { Declares (complete place self.now) self.now self.now result }
    {
        if place == ChunkPlace::Declarations && !self.has_all(&NEEDS) {
            return Err(Stop::At(Cause::Missing));
        }
        Ok(())
    }

    /// A name is declared.
    fn check_known(&self, name: &[u8]) -> Result<(), Stop>
        ensures { Declares (if_known self.now name.now (Ok self.now)) self.now self.now result }
    {
        match self.names.named(name) {
            Some(_) => Ok(()),
            None => Err(Stop::At(Cause::Name)),
        }
    }

    /// What the part of this number declares is known, where the part may stand behind what is declared.
    pub(crate) fn add(
        &mut self,
        alloc: Global,
        place: ChunkPlace,
        number: usize,
        part: &Part,
    ) -> Result<(), Stop>
        ensures { Declares (known_behind place self.old number (part_of part.now)) self.old self.new result }
    {
        match part {
            Part::Class(class) => self.add_class(alloc, number, class),
            Part::Pool(pool) => self.add_pool(alloc, pool),
            Part::Global(name) => self.add_global(alloc, name),
            Part::Opening => self.check_complete(place),
            Part::Header(side) => self.check_known(&side.class),
            Part::Method(_) | Part::Closing => Ok(()),
            Part::Start(start) => {
                self.check_known(&start.receiver)?;
                self.check_complete(place)
            }
        }
    }
}
