// The header of a group.
ghost use Rattle.std.specs.Prelude.{◌≡◌, ◌≤◌, ◌+◌, ◌==◌, ◌++◌, ◌∷◌, [], List, ℕ, length, take, drop, Some, None};
ghost use Rattle.std.specs.List.{prefix_len};
ghost use Rattle.std.specs.Char.{is_ascii_alphanumeric};
ghost use Rattle.std.specs.Option.{option_map};
ghost use Rattle.st_chunk.specs.Texts.{is_blank, most};
ghost use Rattle.st_chunk.specs.Groups.{begins, after_blanks, trimmed, is_name, word_of, behind_word, behind, behind_blanks, with_side, with_category};
ghost use Rattle.st_chunk.specs.inside.Headings.{before_blanks, FindsHeading, Unquotes, class_side_in, category_in};

use crate::buffer::Buffer;
use crate::line::is_blank;

/// A group's header, of which a buffer holds the class's name, and the category behind it.
#[derive(Clone, Copy)]
pub struct Heading {
    /// The length of the class's name.
    pub class_length: usize,
    /// Whether its methods are those of the class side.
    pub meta: bool,
}

/// How many blanks stand at the front of a text.
fn blanks(text: &[u8]) -> usize
    ensures exact { result ≡ prefix_len is_blank text.now }
    ensures within { result ≤ length text.now }
{
    text.iter().take_while(|b| is_blank(**b)).count()
}

/// A text without the blanks at its front.
#[tactic(auto, using(crate::proofs::Blanks::blanks))]
pub fn after_blanks(text: &[u8]) -> &[u8]
    ensures { result.now ≡ after_blanks text.now }
{
    &text[blanks(text)..]
}

/// A text without the blanks at its end.
#[tactic(auto, using(crate::proofs::Blanks::blanks))]
fn before_blanks(text: &[u8]) -> &[u8]
    ensures { result.now ≡ before_blanks text.now }
{
    let mut end = text.len();
    while end > 0 {
        if !is_blank(text[end - 1]) {
            return &text[..end];
        }
        end -= 1;
    }
    &text[..0]
}

/// A text without the blanks at both ends.
pub fn trimmed(text: &[u8]) -> &[u8]
    ensures { result.now ≡ trimmed text.now }
{
    before_blanks(after_blanks(text))
}

/// How many letters and digits stand at the front of a text.
pub fn word_length(text: &[u8]) -> usize
    ensures exact { result ≡ prefix_len is_ascii_alphanumeric text.now }
    ensures within { result ≤ length text.now }
{
    text.iter()
        .take_while(|b| b.is_ascii_alphanumeric())
        .count()
}

/// Whether the letters and digits at the front of a text are a name.
#[tactic(auto, using(crate::proofs::Words::words))]
fn has_name(text: &[u8]) -> bool
    ensures { result ≡ is_name (word_of text.now) }
{
    !text.is_empty() && text[0].is_ascii_alphabetic()
}

/// What stands behind these bytes, if they stand at the front of a text.
#[tactic(auto, using(crate::proofs::Words::words))]
fn behind<'a>(front: &[u8], text: &'a [u8]) -> Option<&'a [u8]>
    ensures { option_map (λ x. x.now) result ≡ behind front.now text.now }
{
    text.strip_prefix(front)
}

/// What stands behind a blank or more.
#[tactic(auto, using(crate::proofs::Words::words))]
fn behind_blanks(text: &[u8]) -> Option<&[u8]>
    ensures { option_map (λ x. x.now) result ≡ behind_blanks text.now }
{
    if text.is_empty() || !is_blank(text[0]) {
        return None;
    }
    Some(after_blanks(text))
}

/// What stands behind `class` and blanks, where they are there.
fn class_side(text: &[u8]) -> Option<&[u8]>
    ensures { option_map (λ x. x.now) result ≡ class_side_in text.now }
{
    behind_blanks(behind(b"class", text)?)
}

/// Whether methods of the class side are meant, and what stands behind that.
fn side(text: &[u8]) -> (bool, &[u8])
    ensures is { (class : List ℕ) → with_side class text.now (class_side_in text.now)
        ≡ with_category class result.0 result.1.now }
    ensures within { length result.1.now ≤ length text.now }
{
    let Some(others) = class_side(text) else {
        return (false, text);
    };
    (true, others)
}

/// What stands behind `methodsFor:`, blanks and a quote.
fn category(text: &[u8]) -> Option<&[u8]>
    ensures { option_map (λ x. x.now) result ≡ category_in text.now }
{
    let others = behind_blanks(behind(b"methodsFor:", text)?)?;
    behind(b"'", others)
}

/// Whether a quote stands at this place.
#[tactic(auto, using(crate::proofs::Words::words))]
fn has_quote(text: &[u8], at: usize) -> bool
    ensures { result ≡ begins (λ b. b == 39) (drop at text.now) }
{
    at < text.len() && text[at] == b'\''
}

/// Puts what the bytes up to a string's closing quote mean behind what is held, and answers whether they are one: whether
/// nothing stands behind that quote.
fn unquote(text: &[u8], held: &mut Buffer) -> bool
    requires { length held.old + length text.now ≤ most }
    ensures { Unquotes text.now held.old held.new result }
{
    let mut at = 0;
    while at < text.len() {
        let byte = text[at];
        if byte != b'\'' {
            held.push(byte);
            at += 1;
        } else if has_quote(text, at + 1) {
            held.push(byte);
            at += 2;
        } else {
            return at + 1 == text.len();
        }
    }
    false
}

/// Holds these bytes alone.
fn hold(bytes: &[u8], held: &mut Buffer)
    requires { length bytes.now ≤ most }
    ensures { held.new ≡ bytes.now }
{
    held.clear();
    for byte in bytes {
        held.push(*byte);
    }
}

/// The header that a chunk of at most 65,536 bytes is, whose class and category are then held; or none.
pub fn read_heading(chunk: &[u8], held: &mut Buffer) -> Option<Heading>
    requires { length chunk.now ≤ most }
    ensures { FindsHeading chunk.now held.new result }
{
    let text = trimmed(chunk);
    if !has_name(text) {
        return None;
    }
    let class_length = word_length(text);
    let Some(others) = behind_blanks(&text[class_length..]) else {
        return None;
    };
    let (meta, others) = side(others);
    let Some(category) = category(others) else {
        return None;
    };
    hold(&text[..class_length], held);
    if unquote(category, held) {
        Some(Heading { class_length, meta })
    } else {
        None
    }
}
