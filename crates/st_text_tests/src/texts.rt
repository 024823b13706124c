//! Rows of texts, one a line, with what is found after ` => `. Of a long text the row has pieces, `foo ^~(*200~1`: `foo ^`, 200
//! parentheses and `1`.

use st_scan::Signed;
use std::alloc::{AllocError, Global};

/// A row's text, and what is found.
pub fn row_of(row: &str) -> (&str, &str) {
    row.split_once(" => ").unwrap_or((row, ""))
}

/// Whether a number is written so.
pub fn is_number(text: &str, number: u128) -> bool {
    text.parse::<u128>().ok() == Some(number)
}

/// Whether a word is this number after a mark.
pub fn is_marked_number(word: &str, mark: &str, number: u128) -> bool {
    is_number(word.strip_prefix(mark).unwrap_or(""), number)
}

/// Whether a number is written so, with a `-` before it if it is a negative one.
pub fn is_signed(text: &str, number: Signed) -> bool {
    let size = text.strip_prefix("-");
    size.is_some() == number.minus && is_number(size.unwrap_or(text), number.size)
}

/// Whether these are numbers with blanks between.
pub fn are_numbers(text: &str, numbers: &[usize]) -> bool {
    let mut seen = 0usize;
    for word in text.split(' ') {
        match numbers.get(seen) {
            Some(number) if is_number(word, *number as u128) => seen += 1,
            _ => return false,
        }
    }
    seen == numbers.len()
}

/// Whether a fault is reported so: its kind, its place, and the number of its cause.
pub fn is_fault(text: &str, kind: &str, place: u32, cause: u8) -> bool {
    match text.split_once(' ') {
        Some((name, numbers)) => name == kind
            && are_numbers(numbers, &[place as usize, usize::from(cause)]),
        None => false,
    }
}

/// Adds the characters of a piece, which are bytes.
fn push_bytes(text: &mut Vec<u8>, piece: &str) -> Result<(), AllocError> {
    for c in piece.chars() {
        text.push((u32::from(c) & 255) as u8)?;
    }
    Ok(())
}

/// Adds a piece, or `PIECE*COUNT` so often.
fn push_often(text: &mut Vec<u8>, piece: &str) -> Result<(), AllocError> {
    let (piece, count) = piece.split_once('*').unwrap_or((piece, "1"));
    for _ in 0..count.parse::<usize>().unwrap_or(0) {
        push_bytes(text, piece)?;
    }
    Ok(())
}

/// The text of some pieces with `~` between.
pub fn text_of(alloc: Global, pieces: &str) -> Result<Vec<u8>, AllocError> {
    let mut text = Vec::new(alloc);
    for piece in pieces.split('~') {
        push_often(&mut text, piece)?;
    }
    Ok(text)
}
