//! The Form that is held as the display, and its rows.

ghost use Rattle.std.specs.Prelude.{◌≡◌, ◌<◌, ◌≤◌, ◌+◌, ◌*◌, IfSome, drop, length, option_and_then, option_map, take};
ghost use Rattle.std.specs.List.{flat_map};
ghost use Rattle.st_model.specs.{Values.value, BitBlt.{fetch_positive, fetch_words}, Pixels.row_words};
ghost use Rattle.st_model.specs.{Table.table, Text.hexadecimal};
ghost use Rattle.st_call.specs.inside.Saying.{Pushes};
ghost use Rattle.st_browse.specs.Display.{answer_in, form_at, form_text, if_held, row_line, row_of, rows_text, word_text};
ghost use Rattle.st_browse.specs.inside.Shown.{HasWords, IsForm, form_in, words_in};

use crate::fields::field_at;
use st_call::{Output, Pushed, push_line};
use st_host::Host;
use st_memory::Memory;
use st_model::{Kind, Oop, RootPlace};

/// A Form.
#[derive(Clone, Copy)]
pub struct Form {
    /// The object of kind Words that has its pixels.
    pub bits: Oop,
    /// How many pixels a row has, at most 16383.
    pub width: u32,
    /// How many rows there are, at most 16383.
    pub height: u32,
}

/// How many words a row of so many pixels has.
fn row_words(width: u32) -> u32
    requires { width < 16384 }
    ensures words { result ≡ row_words width }
    ensures few { result ≤ 1024 }
{
    width.div_ceil(16)
}

/// The SmallInteger of at least 0 in a field.
#[tactic(auto, using(crate::proofs::Forms::numbers))]
fn positive_at<M: Memory>(m: &M, o: Oop, i: u32) -> Option<u32>
    ensures number { let t = (M.view m.now).objects in
        result ≡ answer_in (fetch_positive table (value o) i) t }
    ensures small { IfSome result (λ n. n < 16384) }
{
    let x = field_at(m, o, i)?;
    if !x.is_small() {
        return None;
    }
    let n = u32::from(x.0 / 2);
    if n < 16384 { Some(n) } else { None }
}

/// How many words an object of kind Words has.
#[tactic(auto, using(crate::proofs::Forms::words, st_memory::proofs::Bodies::bodies))]
fn count_words<M: Memory>(m: &M, o: Oop) -> Option<u32>
    ensures count { let t = (M.view m.now).objects in
        result ≡ option_map length (answer_in (fetch_words table (value o)) t) }
    ensures words { IfSome result (λ n. HasWords (M.view m.now).objects (value o)) }
    ensures all { IfSome result (λ n. n ≡ length (words_in (M.view m.now).objects (value o))) }
{
    if !m.live(o) {
        return None;
    }
    match m.kind(o) {
        Kind::Words => Some(m.size(o)),
        Kind::Pointers | Kind::Bytes | Kind::Method => None,
    }
}

/// The Form of an object, where it is one.
#[tactic(auto, using(crate::proofs::Forms::forms))]
fn form_at<M: Memory>(m: &M, o: Oop) -> Option<Form>
    ensures form { let t = (M.view m.now).objects in option_map (form_in t) result ≡ form_at t (value o) }
    ensures there { IfSome result (λ f. IsForm (M.view m.now).objects f) }
{
    let bits = field_at(m, o, 0)?;
    let width = positive_at(m, o, 1)?;
    let height = positive_at(m, o, 2)?;
    let count = count_words(m, bits)?;
    if height * row_words(width) <= count {
        Some(Form {
            bits,
            width,
            height,
        })
    } else {
        None
    }
}

/// The Form that is held as the display, where one is.
#[tactic(auto, using(crate::proofs::Forms::held))]
pub fn find_display<M: Memory>(m: &M) -> Option<Form>
    ensures form { let v = M.view m.now in let display = if_held v.held.devices.display in
        option_map (form_in v.objects) result ≡ option_and_then (form_at v.objects) display }
    ensures there { IfSome result (λ f. IsForm (M.view m.now).objects f) }
{
    let o = m.held(RootPlace::Display);
    if o.0 == Oop::NIL.0 {
        None
    } else {
        form_at(m, o)
    }
}

/// The digit of a number below 16: `0` to `9`, or `a` to `f`.
fn hexadecimal(digit: u16) -> u8
    requires { digit < 16 }
    ensures { result ≡ hexadecimal digit }
{
    let digit = digit as u8;
    if digit < 10 {
        b'0' + digit
    } else {
        b'a' + (digit - 10)
    }
}

/// Adds a word as four digits.
fn push_word<H: Host>(out: &mut Output, host: &mut H, word: u16) -> Pushed
    ensures { Pushes H.Host.own (word_text word) host.old host.new out.old out.new result }
{
    let digits = [
        hexadecimal(word / 4096),
        hexadecimal(word / 256 % 16),
        hexadecimal(word / 16 % 16),
        hexadecimal(word % 16),
    ];
    out.push(host, &digits)
}

/// Adds so many words of an object from one on.
fn push_words<H: Host, M: Memory>(
    out: &mut Output,
    host: &mut H,
    m: &M,
    o: Oop,
    from: u32,
    count: u32,
) -> Pushed
    requires words { HasWords (M.view m.now).objects (value o) }
    requires end { from + count ≤ length (words_in (M.view m.now).objects (value o)) }
    ensures { let words = words_in (M.view m.now).objects (value o) in
        let text = flat_map word_text (take count (drop from words)) in
        Pushes H.Host.own text host.old host.new out.old out.new result }
{
    for i in 0..count {
        push_word(out, host, m.word(o, from + i))?;
    }
    Ok(())
}

/// Adds the line of row y of a Form, counted from 0 from the top.
fn push_row<H: Host, M: Memory>(out: &mut Output, host: &mut H, m: &M, form: Form, y: u32) -> Pushed
    requires form { IsForm (M.view m.now).objects form }
    requires row { y < form.height }
    ensures { let text = row_line (row_of (form_in (M.view m.now).objects form) y) in
        Pushes H.Host.own text host.old host.new out.old out.new result }
{
    let words = row_words(form.width);
    out.push(host, b"row ")?;
    push_words(out, host, m, form.bits, y * words, words)?;
    out.push(host, b"\n")
}

/// Adds the lines of a Form's rows, from the top.
fn push_rows<H: Host, M: Memory>(out: &mut Output, host: &mut H, m: &M, form: Form) -> Pushed
    requires { IsForm (M.view m.now).objects form }
    ensures { let text = rows_text (form_in (M.view m.now).objects form) in
        Pushes H.Host.own text host.old host.new out.old out.new result }
{
    for y in 0..form.height {
        push_row(out, host, m, form, y)?;
    }
    Ok(())
}

/// Adds the lines of a Form: its width and height, and its rows from the top.
pub fn push_form<H: Host, M: Memory>(out: &mut Output, host: &mut H, m: &M, form: Form) -> Pushed
    requires { IsForm (M.view m.now).objects form }
    ensures { let text = form_text (form_in (M.view m.now).objects form) in
        Pushes H.Host.own text host.old host.new out.old out.new result }
{
    push_line(out, host, b"display", &[form.width, form.height])?;
    push_rows(out, host, m, form)
}
