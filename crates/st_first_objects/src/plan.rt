// What is in each of the first objects.
ghost use Rattle.std.specs.Prelude.{◌≡◌, replicate, map, slice_get, IfOk, ◌<◌, length, Some, IfSome};
ghost use Rattle.std.specs.List.{position};
ghost use Rattle.st_kernel_text.specs.{inside.Views.{part_of, account_of}, inside.Lists.texts_of};
ghost use Rattle.st_first_objects.specs.declared.thing.What.TheVariants.{Variable, Symbol};
ghost use Rattle.st_first_objects.specs.Things.{within, is};
ghost use Rattle.st_first_objects.specs.Orders.{numbered_from, selectors, characters, lists, order};
ghost use Rattle.st_first_objects.specs.{Things.same, inside.Ordered.IsPlan, Plans.{plan, declared}};
ghost use Rattle.st_first_objects.specs.Contents.{all_of, array, members, is_shared_of, sharing, instance, instance_of, specification, superclass, meta_superclass};
ghost use Rattle.st_first_objects.specs.Contents.{class_content, metaclass_fields, selector_fields, names_fields, padded, content};
ghost use Rattle.st_first_objects.specs.inside.Views.{thing_of, declared_of, field_of, fields_of, content_of};
ghost use Rattle.st_emit.specs.Selectors.{sends_now};

use crate::class::{Declared, is_nil};
use crate::content::{Body, Content, Field, PLACES, empty_fields};
use crate::order::Order;
use crate::ordering::order;
use crate::thing::{Thing, What};
use crate::unmade::Unmade;
use st_emit::SPECIAL_SENDS;
use st_kernel_text::{Declarations, Kernel, Part, Shape, Text};
use std::alloc::{AllocError, Global};
use std::marker::Model;

/// The specification of a class whose instances have this shape and so many fields.
fn specification(shape: Shape, fields: u8) -> usize
    ensures { result ≡ specification shape fields }
{
    let fields = usize::from(fields);
    match shape {
        Shape::Fixed => 16384 + fields,
        Shape::Indexed => 16384 + 4096 + fields,
        Shape::Words => 8192 + 4096 + fields,
        Shape::Bytes => 4096 + fields,
    }
}

/// The superclass of this name.
fn superclass<'a>(above: &'a [u8]) -> Field<'a>
    ensures { field_of result ≡ superclass above.now }
{
    if is_nil(above) {
        return Field::Empty;
    }
    Field::To(Thing::class(above))
}

/// The superclass of the metaclass of a class that has the superclass of this name.
fn meta_superclass<'a>(above: &'a [u8]) -> Field<'a>
    ensures { field_of result ≡ meta_superclass above.now }
{
    if is_nil(above) {
        return Field::To(Thing::class(b"Class"));
    }
    Field::To(Thing::named(What::Metaclass, above))
}

/// So many things of this kind, numbered from 0.
fn numbered_fields<'a>(
    alloc: Global,
    what: What,
    count: usize,
) -> Result<Vec<Field<'a>>, AllocError>
    ensures { IfOk result (λ fields. fields_of fields.items ≡ all_of (numbered_from what 0 count)) }
{
    let mut fields = Vec::new(alloc);
    for number in 0..count {
        fields.push(Field::To(Thing::numbered(what, number)))?;
    }
    Ok(fields)
}

/// These selectors, each with its number of arguments.
fn selector_fields<'a>(
    alloc: Global,
    selectors: &'a [(&'a [u8], u8)],
) -> Result<Vec<Field<'a>>, AllocError>
    ensures { IfOk result (λ fields. fields_of fields.items ≡ selector_fields (sends_now selectors.now)) }
{
    let mut fields = Vec::new(alloc);
    for (selector, arguments) in selectors {
        fields.push(Field::To(Thing::symbol(selector)))?;
        fields.push(Field::Number(usize::from(*arguments)))?;
    }
    Ok(fields)
}

/// The Array of special selectors.
#[tactic(auto, unfolding(crate::specs::Orders::selectors))]
fn special_selectors<'a>(alloc: Global) -> Result<Content<'a>, AllocError>
    ensures { IfOk result (λ c. content_of c ≡ array (selector_fields selectors)) }
{
    Ok(Content::array(selector_fields(alloc, &SPECIAL_SENDS)?))
}

/// The Array of all Characters.
#[tactic(auto, unfolding(crate::specs::Orders::characters))]
fn characters<'a>(alloc: Global) -> Result<Content<'a>, AllocError>
    ensures { IfOk result (λ c. content_of c ≡ array (all_of characters)) }
{
    let fields = numbered_fields(alloc, What::Character, 256)?;
    Ok(Content::array(fields))
}

/// The Array of the scheduler's lists.
#[tactic(auto, unfolding(crate::specs::Orders::lists))]
fn lists<'a>(alloc: Global) -> Result<Content<'a>, AllocError>
    ensures { IfOk result (λ c. content_of c ≡ array (all_of lists)) }
{
    Ok(Content::array(numbered_fields(alloc, What::List, 8)?))
}

/// The Strings of the names that the part of this number declares.
fn variable_fields<'a>(
    alloc: Global,
    number: usize,
    names: &'a [Text],
) -> Result<Vec<Field<'a>>, AllocError>
    ensures { let strings = map (within Variable number) (texts_of names.now) in
        IfOk result (λ fields. fields_of fields.items ≡ all_of strings) }
{
    let mut fields = Vec::new(alloc);
    for name in names {
        fields.push(Field::To(Thing::within(What::Variable, number, name)))?;
    }
    Ok(fields)
}

/// A new instance of the class of this name, of which this is known.
fn instance<'a>(
    alloc: Global,
    class: &'a [u8],
    declared: Declared<'a>,
) -> Result<Content<'a>, AllocError>
    ensures { let d = declared_of declared.entry in
        IfOk result (λ c. content_of c ≡ instance class.now d.shape d.fields) }
{
    match declared.shape {
        Shape::Fixed | Shape::Indexed => {
            let fields = empty_fields(alloc, usize::from(declared.fields))?;
            Ok(Content::of_fields(class, fields))
        }
        Shape::Words => Ok(Content {
            class: Thing::class(class),
            body: Body::NoWords,
        }),
        Shape::Bytes => Ok(Content::of_bytes(class, b"")),
    }
}

/// A class of this name, of which this is known.
fn class<'a>(
    alloc: Global,
    name: &'a [u8],
    declared: Declared<'a>,
) -> Result<Content<'a>, AllocError>
    ensures { IfOk result (λ c. content_of c ≡ class_content name.now (declared_of declared.entry)) }
{
    let fields = vec![in alloc;
        superclass(declared.above),
        Field::To(Thing::named(What::Dictionary, name)),
        Field::Number(specification(declared.shape, declared.fields)),
        Field::Empty,
        Field::To(Thing::named(What::Names, name)),
        Field::Empty,
        Field::To(Thing::symbol(name)),
        Field::To(Thing::named(What::Pool, name)),
        Field::Empty,
    ]?;
    Ok(Content {
        class: Thing::named(What::Metaclass, name),
        body: Body::Fields(fields),
    })
}

/// The fields of the metaclass of the class of this name, of which this is known.
fn metaclass_fields<'a>(
    alloc: Global,
    name: &'a [u8],
    declared: Declared<'a>,
) -> Result<Vec<Field<'a>>, AllocError>
    ensures { IfOk result (λ fields. fields_of fields.items
        ≡ metaclass_fields name.now (declared_of declared.entry)) }
{
    let fields = vec![in alloc;
        meta_superclass(declared.above),
        Field::To(Thing::named(What::MetaDictionary, name)),
        Field::Number(specification(Shape::Fixed, 9)),
        Field::Empty,
        Field::Empty,
        Field::Empty,
        Field::To(Thing::class(name)),
    ]?;
    Ok(fields)
}

/// A kernel text's parts, the names that they declare, and the order of its things.
#[derive(Drop)]
pub(crate) struct FirstObjects<'a> {
    parts: &'a [Part],
    names: &'a Declarations,
    order: Order<'a>,
}

impl<'a> Model for FirstObjects<'a> {
    ghost use Rattle.st_kernel_text.specs.inside.Views.{parts_of};
    ghost use Rattle.st_first_objects.specs.Plans.{FirstObjects};

    ghost Value = { FirstObjects };

    ghost view = { λ p. record { parts = parts_of p.parts.now; names = p.names.now; order = p.order } };
}

impl<'a> FirstObjects<'a> {
    /// The class of this name.
    fn declared(&self, name: &[u8]) -> Declared<'a>
        ensures { declared_of result ≡ declared self.now name.now }
    {
        let Some(layout) = self.names.layout(name) else {
            return Declared::undeclared();
        };
        match self.parts.get(layout.number) {
            Some(Part::Class(class)) => Declared {
                number: layout.number,
                above: &class.above,
                shape: layout.shape,
                variables: &class.variables,
                fields: layout.fields,
            },
            _ => Declared::undeclared(),
        }
    }

    /// The class to which the part of this number gives class variables.
    fn sharing(&self, number: usize) -> &'a [u8]
        ensures { result.now ≡ sharing (slice_get self.now.parts number) }
    {
        match self.parts.get(number) {
            Some(Part::Pool(pool)) => &pool.class,
            _ => b"",
        }
    }

    /// The things of this kind, in the order of their making.
    fn members(&self, alloc: Global, what: What) -> Result<Vec<Field<'a>>, AllocError>
        ensures { IfOk result (λ fields. fields_of fields.items ≡ members self.now (is what)) }
    {
        let mut fields = Vec::new(alloc);
        for i in 0..self.order.count() {
            let thing = self.order.thing(i);
            if thing.is(what) {
                fields.push(Field::To(thing))?;
            }
        }
        Ok(fields)
    }

    /// Whether it is a class variable of the class of this name.
    fn is_shared_of(&self, class: &[u8], thing: &Thing<'a>) -> bool
        ensures { result ≡ is_shared_of self.now class.now (thing_of thing.now) }
    {
        thing.is(What::Shared) && class == self.sharing(thing.number)
    }

    /// The class variables of the class of this name, in the order of their making.
    fn shared(&self, alloc: Global, class: &[u8]) -> Result<Vec<Field<'a>>, AllocError>
        ensures { let all = members self.now (is_shared_of self.now class.now) in
            IfOk result (λ fields. fields_of fields.items ≡ all) }
    {
        let mut fields = Vec::new(alloc);
        for i in 0..self.order.count() {
            let thing = self.order.thing(i);
            if self.is_shared_of(class, &thing) {
                fields.push(Field::To(thing))?;
            }
        }
        Ok(fields)
    }

    /// So many places of the symbol table.
    fn table(&self, alloc: Global, places: usize) -> Result<Vec<Field<'a>>, AllocError>
        ensures { let symbols = members self.now (is Symbol) in
            IfOk result (λ fields. fields_of fields.items ≡ padded places symbols) }
    {
        let members = self.members(alloc, What::Symbol)?;
        let mut fields = Vec::new(alloc);
        for i in 0..places {
            let field = members.get(i).copied().unwrap_or(Field::Empty);
            fields.push(field)?;
        }
        Ok(fields)
    }

    /// A new instance of the class of this name.
    fn instance(&self, alloc: Global, class: &'a [u8]) -> Result<Content<'a>, AllocError>
        ensures { IfOk result (λ c. content_of c ≡ instance_of self.now class.now) }
    {
        instance(alloc, class, self.declared(class))
    }
}

impl<'a> FirstObjects<'a> {
    /// That of a text.
    pub(crate) fn of(alloc: Global, kernel: &'a Kernel) -> Result<FirstObjects<'a>, Unmade>
        ensures { IsPlan (plan (account_of kernel.now)) result }
    {
        match order(alloc, kernel) {
            Ok(order) => Ok(FirstObjects {
                parts: &kernel.parts,
                names: &kernel.names,
                order,
            }),
            Err(unmade) => Err(unmade),
        }
    }

    /// How many things there are.
    pub(crate) fn count(&self) -> usize
        ensures { result ≡ length self.now.order.things }
    {
        self.order.count()
    }

    /// The thing that is made as this one, counted from 0.
    pub(crate) fn thing(&self, i: usize) -> Thing<'a>
        requires { i < length self.now.order.things }
        ensures { slice_get self.now.order.things i ≡ Some (thing_of result) }
    {
        self.order.thing(i)
    }

    /// As which a thing is made, counted from 0.
    pub(crate) fn position(&self, thing: &Thing<'a>) -> Option<usize>
        ensures found { result ≡ position (same (thing_of thing.now)) self.now.order.things }
        ensures within { IfSome result (λ i. i < length self.now.order.things) }
    {
        self.order.position(thing)
    }
}

impl<'a> FirstObjects<'a> {
    /// What is in an object.
    pub(crate) fn content(&self, alloc: Global, thing: Thing<'a>) -> Result<Content<'a>, AllocError>
        ensures { IfOk result (λ c. content_of c ≡ content self.now (thing_of thing.entry)) }
    {
        let name = thing.name;
        match thing.what {
            What::Nil => self.instance(alloc, b"UndefinedObject"),
            What::False => self.instance(alloc, b"False"),
            What::True => self.instance(alloc, b"True"),
            What::SchedulerAssociation => {
                let scheduler = Field::To(Thing::only(What::Scheduler));
                Content::association(alloc, Field::Empty, scheduler)
            }
            What::Selectors => special_selectors(alloc),
            What::Characters => characters(alloc),
            What::Character => {
                let fields = vec![in alloc; Field::Number(thing.number)]?;
                Ok(Content::of_fields(b"Character", fields))
            }
            What::Symbols => {
                let table = Thing::numbered(What::SymbolTable, self.order.places());
                Content::association(alloc, Field::Empty, Field::To(table))
            }
            What::SymbolTable => Ok(Content::array(self.table(alloc, thing.number)?)),
            What::Globals => Ok(Content::array(self.members(alloc, What::Global)?)),
            What::Class => class(alloc, name, self.declared(name)),
            What::Metaclass => {
                let fields = metaclass_fields(alloc, name, self.declared(name))?;
                Ok(Content::of_fields(b"Metaclass", fields))
            }
            What::Dictionary => Content::dictionary(alloc, Thing::named(What::Methods, name)),
            What::MetaDictionary => {
                Content::dictionary(alloc, Thing::named(What::MetaMethods, name))
            }
            What::Methods | What::MetaMethods => {
                Ok(Content::array(empty_fields(alloc, PLACES)?))
            }
            What::Symbol => Ok(Content::of_bytes(b"Symbol", name)),
            What::Names => {
                let declared = self.declared(name);
                let fields = variable_fields(alloc, declared.number, declared.variables)?;
                Ok(Content::array(fields))
            }
            What::Variable => Ok(Content::of_bytes(b"String", name)),
            What::Pool => Ok(Content::array(self.shared(alloc, name)?)),
            What::Shared => {
                Content::association(alloc, Field::To(Thing::symbol(name)), Field::Empty)
            }
            What::Global => {
                let value = Field::To(Thing::class(name));
                Content::association(alloc, Field::To(Thing::symbol(name)), value)
            }
            What::Scheduler => {
                let lists = Field::To(Thing::only(What::Lists));
                let fields = vec![in alloc; lists, Field::Empty]?;
                Ok(Content::of_fields(b"ProcessorScheduler", fields))
            }
            What::Lists => lists(alloc),
            What::List => Ok(Content::of_fields(b"LinkedList", empty_fields(alloc, 2)?)),
        }
    }
}
