ghost use Rattle.std.specs.Prelude.{◌≡◌, length};
ghost use Rattle.st_model.specs.Image.{entries_of, is_used};
ghost use Rattle.st_model.specs.Faults.{short_fails, lengths_fail, used_below, capacity_fails};

use crate::form::{entry_width, most_words_of};
use crate::image::Image;
use st_model::ImageHead;

/// Whether a file ends before its table does.
#[tactic(auto, unfolding(st_model::specs::Faults::short_fails))]
pub fn is_short(head: ImageHead, bytes: &[u8]) -> bool
    ensures { result ≡ short_fails head bytes.now }
{
    let table_start = 512 + (2 * u64::from(head.space)).div_ceil(512) * 512;
    let length = bytes.len() as u64;
    length < 512 || length < table_start + 2 * u64::from(head.table)
}

/// Whether a head has lengths out of range, or another version than 1 and 2.
#[tactic(auto, unfolding(st_model::specs::Faults::lengths_fail))]
pub fn has_bad_lengths(head: ImageHead) -> bool
    ensures { result ≡ lengths_fail head }
{
    let width = entry_width(head);
    !(head.version == 1 || head.version == 2)
        || head.table % width != 0
        || head.table > 32768 * width
        || head.space > most_words_of(head)
}

/// How many entries are in use.
fn count_used(image: &Image<'_>) -> u32
    ensures { result ≡ used_below image.now.head image.now.bytes.now (entries_of image.now.head) }
{
    let mut used = 0;
    for k in 0..image.entries() {
        if image.is_used(k) {
            used += 1;
        }
    }
    used
}

/// Whether a capacity is out of range, or too small for what the file holds.
#[tactic(auto, unfolding(st_model::specs::Faults::capacity_fails))]
pub fn has_bad_capacity(image: &Image<'_>) -> bool
    ensures { result ≡ capacity_fails image.now.head image.now.bytes.now }
{
    let head = image.head;
    head.entries > 32767
        || head.entries < count_used(image)
        || head.words > most_words_of(head)
        || head.words < head.space
}
