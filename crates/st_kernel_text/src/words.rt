// The words of a chunk.
ghost use Rattle.std.specs.Prelude.{◌≡◌, ◌<◌, ◌≤◌, ◌∷◌, [], length, IfOk, IfSome, MatchOption};
ghost use Rattle.std.specs.{Char.{is_ascii_alphabetic, is_ascii_alphanumeric}, List.{list_all, prefix_len}};
ghost use Rattle.std.specs.Option.{option_map};
ghost use Rattle.st_chunk.specs.Groups.{begins, is_name};
ghost use Rattle.st_kernel_text.specs.{Words.{words, no_blank, names_in}, inside.Lists.texts_of};

use crate::part::Text;
use st_chunk::{after_blanks, is_blank};
use std::alloc::{AllocError, Global};

/// How many bytes stand before the first blank.
fn word_length(text: &[u8]) -> usize
    ensures exact { result ≡ prefix_len no_blank text.now }
    ensures within { result ≤ length text.now }
{
    text.iter().take_while(|b| !is_blank(**b)).count()
}

/// The first word of a text, and what stands behind it.
pub(crate) fn first_word(text: &[u8]) -> Option<(&[u8], &[u8])>
    ensures found { MatchOption result (words text.now ≡ [])
        (λ x. words text.now ≡ x.0.now ∷ words x.1.now) }
    ensures shorter { IfSome result (λ x. length x.1.now < length text.now) }
{
    let rest = after_blanks(text);
    let end = word_length(rest);
    if end == 0 {
        return None;
    }
    Some((&rest[..end], &rest[end..]))
}

/// Whether a word begins with a letter.
#[tactic(auto, using(st_chunk::proofs::Words::words))]
fn begins_with_letter(word: &[u8]) -> bool
    ensures { result ≡ begins is_ascii_alphabetic word.now }
{
    !word.is_empty() && word[0].is_ascii_alphabetic()
}

/// Whether a word has letters and digits alone.
fn is_alphanumeric(word: &[u8]) -> bool
    ensures { result ≡ list_all is_ascii_alphanumeric word.now }
{
    word.iter().all(|b| b.is_ascii_alphanumeric())
}

/// Whether a word is a name: letters and digits, a letter first.
pub(crate) fn is_name(word: &[u8]) -> bool
    ensures { result ≡ is_name word.now }
{
    begins_with_letter(word) && is_alphanumeric(word)
}

/// The words of a text, where all of them are names.
pub(crate) fn names_in(alloc: Global, text: &[u8]) -> Result<Option<Vec<Text>>, AllocError>
    ensures { IfOk result (λ names. option_map (λ v. texts_of v.items) names ≡ names_in (words text.now)) }
{
    let mut names = Vec::new(alloc);
    let mut rest = text;
    while let Some((word, behind)) = first_word(rest) {
        if !is_name(word) {
            return Ok(None);
        }
        names.push(word.to_vec(alloc)?)?;
        rest = behind;
    }
    Ok(Some(names))
}
