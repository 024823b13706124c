// The words behind a command: its operands, and its options with their values.
ghost use Rattle.std.specs.Prelude.{◌≡◌, ◌≤◌, ◌^◌, map, option_map};
ghost use Rattle.std.specs.String.{string_bytes};
ghost use Rattle.st_call.specs.Arguments.{setting_named, value_of, with_value, is_option};
ghost use Rattle.st_call.specs.Arguments.{with_operand, with_setting, with_option, with_any, with_next, arguments_of};
ghost use Rattle.st_call.specs.inside.CommandViews.{operands_view, arguments_view};

use st_chunk::read_number;
use st_image::HeadValues;

/// An option, which gives a value in place of one in an image's head.
#[derive(Clone, Copy)]
pub(crate) enum Setting {
    Globals,
    Symbols,
    Entries,
    Words,
}

/// What the next word is.
#[derive(Clone, Copy)]
pub(crate) enum Next {
    /// An operand or an option, or the mark that all behind it are operands.
    Any,
    /// The value of an option.
    ValueOf(Setting),
    /// An operand.
    Operand,
}

/// The operands of a command, in their order.
#[derive(Clone, Copy)]
pub(crate) enum Operands<'a> {
    Empty,
    One(&'a str),
    Two(&'a str, &'a str),
}

/// What the words behind a command have said so far.
#[derive(Clone, Copy)]
pub(crate) struct Arguments<'a> {
    pub(crate) operands: Operands<'a>,
    pub(crate) options: HeadValues,
    pub(crate) next: Next,
}

/// No operands and no options.
const NO_ARGUMENTS: Arguments<'static> = Arguments {
    operands: Operands::Empty,
    options: HeadValues::NONE,
    next: Next::Any,
};

/// The option of this name.
fn setting_named(name: &str) -> Option<Setting>
    ensures { result ≡ setting_named name.now }
{
    if name == "--globals" {
        Some(Setting::Globals)
    } else if name == "--symbols" {
        Some(Setting::Symbols)
    } else if name == "--entries" {
        Some(Setting::Entries)
    } else if name == "--words" {
        Some(Setting::Words)
    } else {
        None
    }
}

/// Whether a word begins with `-` and isn't `-`.
fn is_option(word: &[u8]) -> bool
    ensures { result ≡ is_option word.now }
{
    match word.first() {
        Some(first) => *first == b'-' && word.len() > 1,
        None => false,
    }
}

impl Setting {
    /// The value that it has among these.
    fn value_in(self, values: HeadValues) -> Option<u32>
        ensures { result ≡ value_of self values }
    {
        match self {
            Setting::Globals => values.globals,
            Setting::Symbols => values.symbols,
            Setting::Entries => values.entries,
            Setting::Words => values.words,
        }
    }

    /// These values, with one for it.
    fn put_in(self, value: u32, values: HeadValues) -> HeadValues
        ensures { result ≡ with_value self value values }
    {
        let value = Some(value);
        match self {
            Setting::Globals => HeadValues {
                globals: value,
                ..values
            },
            Setting::Symbols => HeadValues {
                symbols: value,
                ..values
            },
            Setting::Entries => HeadValues {
                entries: value,
                ..values
            },
            Setting::Words => HeadValues {
                words: value,
                ..values
            },
        }
    }
}

impl<'a> Arguments<'a> {
    /// With an operand more; none where there are two, or this one is empty.
    fn with_operand(self, word: &'a str) -> Option<Arguments<'a>>
        ensures { option_map arguments_view result ≡ with_operand (arguments_view self.entry) word.now }
    {
        if word.is_empty() {
            return None;
        }
        let operands = match self.operands {
            Operands::Empty => Operands::One(word),
            Operands::One(first) => Operands::Two(first, word),
            Operands::Two(_first, _second) => return None,
        };
        Some(Arguments { operands, ..self })
    }

    /// With the value of an option; none where it has one, or this is no number of 32 bits.
    fn with_setting(self, word: &str, setting: Setting) -> Option<Arguments<'a>>
        ensures { option_map arguments_view result
            ≡ with_setting (arguments_view self.entry) word.now setting }
    {
        if setting.value_in(self.options).is_some() {
            return None;
        }
        let value = read_number(u32::MAX, word.as_bytes())?;
        Some(Arguments {
            options: setting.put_in(value, self.options),
            next: Next::Any,
            ..self
        })
    }

    /// With an option, whose value stands behind a `=` or in the next word.
    fn with_option(self, word: &str) -> Option<Arguments<'a>>
        ensures { option_map arguments_view result ≡ with_option (arguments_view self.entry) word.now }
    {
        match word.split_once('=') {
            Some((name, value)) => self.with_setting(value, setting_named(name)?),
            None => Some(Arguments {
                next: Next::ValueOf(setting_named(word)?),
                ..self
            }),
        }
    }

    /// With an operand or an option.
    fn with_any(self, word: &'a str) -> Option<Arguments<'a>>
        ensures { option_map arguments_view result ≡ with_any (arguments_view self.entry) word.now }
    {
        if word == "--" {
            return Some(Arguments {
                next: Next::Operand,
                ..self
            });
        }
        if is_option(word.as_bytes()) {
            self.with_option(word)
        } else {
            self.with_operand(word)
        }
    }

    /// With the next word.
    fn with_next(self, word: &'a str) -> Option<Arguments<'a>>
        ensures { option_map arguments_view result
            ≡ with_next self.entry.next (arguments_view self.entry) word.now }
    {
        match self.next {
            Next::Any => self.with_any(word),
            Next::ValueOf(setting) => self.with_setting(word, setting),
            Next::Operand => self.with_operand(word),
        }
    }
}

/// What these words say; none where they say nothing, as where an option's value is missing.
pub(crate) fn read_arguments(words: &[String]) -> Option<Arguments<'_>>
    ensures { option_map arguments_view result ≡ arguments_of (map string_bytes words.now) }
{
    let mut arguments = NO_ARGUMENTS;
    for word in words {
        arguments = arguments.with_next(word.as_str())?;
    }
    match arguments.next {
        Next::ValueOf(_setting) => None,
        Next::Any | Next::Operand => Some(arguments),
    }
}
