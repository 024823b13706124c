ghost use Rattle.std.specs.Prelude.{◌≡◌, Some, map, option_map};
ghost use Rattle.std.specs.String.{string_bytes};
ghost use Rattle.st_chunk.specs.Lines.{number};
ghost use Rattle.st_call.specs.Words.{Once, Import, Export, Clean, Condense, Session, Build, Drill};
ghost use Rattle.st_call.specs.Words.{of_operand, of_operands, has_values, command_named, command_of};
ghost use Rattle.st_call.specs.inside.CommandViews.{operands_view, arguments_view, command_view};

use crate::arguments::{Arguments, Operands, read_arguments};
use st_chunk::read_number;
use st_image::HeadValues;

/// A command of the program.
#[derive(Clone, Copy)]
pub enum Command<'a> {
    /// The report of so many cycles of an image.
    Once {
        image: &'a str,
        cycles: u32,
    },
    /// The making of a store of an image, with these values in place of those in its head.
    Import {
        image: &'a str,
        store: &'a str,
        over: HeadValues,
    },
    /// The writing of an image of what a store holds.
    Export {
        store: &'a str,
        image: &'a str,
    },
    /// The writing of an image of what can be reached in a store.
    Clean {
        store: &'a str,
        image: &'a str,
    },
    /// The dropping of a store's superseded definitions.
    Condense {
        store: &'a str,
    },
    /// A session over a store.
    Session {
        store: &'a str,
    },
    /// The making of a store of the image that a kernel text builds.
    Build {
        kernel: &'a str,
        store: &'a str,
    },
    /// The report of the drill of this number.
    Drill {
        number: u32,
    },
}

/// The largest number that is an operand: of the cycles of a run, and of a drill.
const LARGEST_OPERAND: u32 = 1_000_000_000;

/// The command of `IMAGE N`.
fn once(operands: Operands<'_>) -> Option<Command<'_>>
    ensures { option_map command_view result
        ≡ of_operands (λ image n. option_map (Once image) (number 1000000000 n))
        (operands_view operands.entry) }
{
    match operands {
        Operands::Two(image, number) => {
            let cycles = read_number(LARGEST_OPERAND, number.as_bytes())?;
            Some(Command::Once { image, cycles })
        }
        Operands::Empty | Operands::One(_) => None,
    }
}

/// The command of `IMAGE STORE`.
fn import(over: HeadValues, operands: Operands<'_>) -> Option<Command<'_>>
    ensures { option_map command_view result
        ≡ of_operands (λ image store. Some (Import image store over)) (operands_view operands.entry) }
{
    match operands {
        Operands::Two(image, store) => Some(Command::Import { image, store, over }),
        Operands::Empty | Operands::One(_) => None,
    }
}

/// The command of `STORE IMAGE`.
fn export(operands: Operands<'_>) -> Option<Command<'_>>
    ensures { option_map command_view result
        ≡ of_operands (λ store image. Some (Export store image)) (operands_view operands.entry) }
{
    match operands {
        Operands::Two(store, image) => Some(Command::Export { store, image }),
        Operands::Empty | Operands::One(_) => None,
    }
}

/// The command of `STORE IMAGE`.
fn clean(operands: Operands<'_>) -> Option<Command<'_>>
    ensures { option_map command_view result
        ≡ of_operands (λ store image. Some (Clean store image)) (operands_view operands.entry) }
{
    match operands {
        Operands::Two(store, image) => Some(Command::Clean { store, image }),
        Operands::Empty | Operands::One(_) => None,
    }
}

/// The command of `STORE`.
fn condense(operands: Operands<'_>) -> Option<Command<'_>>
    ensures { option_map command_view result
        ≡ of_operand (λ store. Some (Condense store)) (operands_view operands.entry) }
{
    match operands {
        Operands::One(store) => Some(Command::Condense { store }),
        Operands::Empty | Operands::Two(_, _) => None,
    }
}

/// The command of `STORE`.
fn session(operands: Operands<'_>) -> Option<Command<'_>>
    ensures { option_map command_view result
        ≡ of_operand (λ store. Some (Session store)) (operands_view operands.entry) }
{
    match operands {
        Operands::One(store) => Some(Command::Session { store }),
        Operands::Empty | Operands::Two(_, _) => None,
    }
}

/// The command of `KERNEL STORE`.
fn build(operands: Operands<'_>) -> Option<Command<'_>>
    ensures { option_map command_view result
        ≡ of_operands (λ kernel store. Some (Build kernel store)) (operands_view operands.entry) }
{
    match operands {
        Operands::Two(kernel, store) => Some(Command::Build { kernel, store }),
        Operands::Empty | Operands::One(_) => None,
    }
}

/// The command of `N`.
fn drill(operands: Operands<'_>) -> Option<Command<'_>>
    ensures { option_map command_view result
        ≡ of_operand (λ n. option_map Drill (number 1000000000 n)) (operands_view operands.entry) }
{
    match operands {
        Operands::One(number) => {
            let number = read_number(LARGEST_OPERAND, number.as_bytes())?;
            Some(Command::Drill { number })
        }
        Operands::Empty | Operands::Two(_, _) => None,
    }
}

/// Whether any value is there.
fn has_values(values: HeadValues) -> bool
    ensures { result ≡ has_values values }
{
    values.entries.is_some()
        || values.words.is_some()
        || values.globals.is_some()
        || values.symbols.is_some()
}

/// The command of this name; only `import` has options.
fn command_named<'a>(name: &str, arguments: Arguments<'a>) -> Option<Command<'a>>
    ensures { option_map command_view result ≡ command_named name.now (arguments_view arguments.entry) }
{
    if name == "import" {
        return import(arguments.options, arguments.operands);
    }
    if has_values(arguments.options) {
        return None;
    }
    if name == "once" {
        once(arguments.operands)
    } else if name == "export" {
        export(arguments.operands)
    } else if name == "clean" {
        clean(arguments.operands)
    } else if name == "condense" {
        condense(arguments.operands)
    } else if name == "session" {
        session(arguments.operands)
    } else if name == "build" {
        build(arguments.operands)
    } else if name == "drill" {
        drill(arguments.operands)
    } else {
        None
    }
}

/// The command that the words say, without the program's name; none of words that say no command.
pub fn read_command(words: &[String]) -> Option<Command<'_>>
    ensures { option_map command_view result ≡ command_of (map string_bytes words.now) }
{
    let (name, others) = words.split_first()?;
    command_named(name.as_str(), read_arguments(others)?)
}
