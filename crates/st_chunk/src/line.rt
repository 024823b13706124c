// The lines of a script.
ghost use Rattle.std.specs.Prelude.{◌≡◌, ◌≤◌, ◌==◌, not, take, drop, IfSome, Option};
ghost use Rattle.std.specs.Option.{option_copied, option_map};
ghost use Rattle.st_chunk.specs.Texts.{is_blank, is_empty};
ghost use Rattle.st_chunk.specs.Lines.{number, word_end, first_word, arguments, mouse_at, traced_cycles, with_arguments, alone, by_words, in_grammar, line_request};

use crate::browsing::line_ask;
use crate::request::Request;

/// The most bytes of a line, without its end, and of a chunk.
pub(crate) const MOST: usize = 65_536;

/// Whether a byte is a blank.
pub fn is_blank(byte: u8) -> bool
    ensures { result ≡ is_blank byte }
{
    byte == 9 || byte == 10 || byte == 12 || byte == 13 || byte == 32
}

/// Whether there are blanks alone.
pub fn is_empty(text: &[u8]) -> bool
    ensures { result ≡ is_empty text.now }
{
    text.iter().all(|b| is_blank(*b))
}

/// The number that a word of 1 to 10 decimal digits says, where it is at most the limit.
#[tactic(auto, using(crate::proofs::Digits::digits), unfolding(crate::specs::Lines::number))]
pub fn read_number(limit: u32, word: &[u8]) -> Option<u32>
    ensures value { result ≡ number limit word.now }
    ensures within { IfSome result (λ n. n ≤ limit) }
{
    if word.is_empty() || word.len() > 10 {
        return None;
    }
    let mut n: u64 = 0;
    for digit in word {
        if !digit.is_ascii_digit() {
            return None;
        }
        n = 10 * n + u64::from(*digit - b'0');
        if n > u64::from(limit) {
            return None;
        }
    }
    Some(n as u32)
}

/// The length of the first word.
pub(crate) fn word_end(text: &[u8]) -> usize
    ensures exact { result ≡ word_end text.now }
{
    text.iter().take_while(|b| !(**b == b' ')).count()
}

/// The first word.
pub(crate) fn first_word(text: &[u8]) -> &[u8]
    ensures { result.now ≡ first_word text.now }
{
    &text[..word_end(text)]
}

/// What stands behind the space behind the first word, if one is there.
pub(crate) fn arguments(text: &[u8]) -> Option<&[u8]>
    ensures { option_map (λ x. x.now) result ≡ arguments text.now }
{
    let end = word_end(text);
    if end < text.len() {
        Some(&text[end + 1..])
    } else {
        None
    }
}

/// The mouse at two numbers.
fn mouse_at(text: &[u8]) -> Option<Request>
    ensures { result ≡ mouse_at text.now }
{
    let x = read_number(16_383, first_word(text))?;
    let y = read_number(16_383, arguments(text)?)?;
    Some(Request::Mouse(x as u16, y as u16))
}

/// How many cycles a trace has: a number from 1 to 1,000,000.
fn traced_cycles(text: &[u8]) -> Option<u32>
    ensures { result ≡ traced_cycles text.now }
{
    let cycles = read_number(1_000_000, text)?;
    if cycles >= 1 { Some(cycles) } else { None }
}

/// What a line of a word and its arguments asks for.
#[tactic(auto, unfolding(crate::specs::Lines::with_arguments))]
fn with_arguments(word: &[u8], text: &[u8]) -> Option<Request>
    ensures { result ≡ with_arguments word.now text.now }
{
    if word == b"run".as_slice() {
        return Some(Request::Run(read_number(1_000_000_000, text)?));
    }
    if word == b"trace".as_slice() {
        return Some(Request::Trace(traced_cycles(text)?));
    }
    if word == b"input".as_slice() {
        return Some(Request::Input(read_number(65_535, text)? as u16));
    }
    if word == b"mouse".as_slice() {
        return mouse_at(text);
    }
    if word == b"clock".as_slice() {
        return Some(Request::Clock(read_number(u32::MAX, text)?));
    }
    if word == b"tick".as_slice() {
        return Some(Request::Tick(read_number(u32::MAX, text)?));
    }
    None
}

/// What a line of one word asks for.
#[tactic(auto, unfolding(crate::specs::Lines::alone))]
fn alone(word: &[u8]) -> Option<Request>
    ensures { result ≡ alone word.now }
{
    if word == b"state".as_slice() {
        return Some(Request::State);
    }
    if word == b"used".as_slice() {
        return Some(Request::Used);
    }
    if word == b"stack".as_slice() {
        return Some(Request::Stack);
    }
    if word == b"snapshot".as_slice() {
        return Some(Request::Snapshot);
    }
    if word == b"end".as_slice() {
        return Some(Request::End);
    }
    None
}

/// What a line asks for by its words, but for what it asks to look at.
fn by_words(text: &[u8]) -> Option<Request>
    ensures { result ≡ by_words (first_word text.now) (arguments text.now) }
{
    let word = first_word(text);
    match arguments(text) {
        Some(others) => with_arguments(word, others),
        None => alone(word),
    }
}

/// What a line asks for, if it is in the grammar.
fn in_grammar(text: &[u8]) -> Option<Request>
    ensures { result ≡ in_grammar text.now }
{
    if let Some(request) = by_words(text) {
        return Some(request);
    }
    let _ask = line_ask(text)?;
    Some(Request::Browse)
}

/// What the line of this number asks for; nothing, where it is blank.
#[tactic(auto, unfolding(crate::specs::Lines::line_request))]
pub(crate) fn line_request(number: u64, text: &[u8]) -> Option<Request>
    ensures { result ≡ line_request number text.now }
{
    if text.len() > MOST {
        return Some(Request::Wrong(number));
    }
    if is_empty(text) {
        return None;
    }
    Some(in_grammar(text).unwrap_or(Request::Wrong(number)))
}
