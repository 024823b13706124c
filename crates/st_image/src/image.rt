ghost use Rattle.st_image.specs.inside.Sizes.{IsSized};

use crate::form::entry_width;
use crate::numbers::{read16, read32};
use st_model::ImageHead;

/// An image file that holds its table.
#[derive(Clone, Copy)]
pub struct Image<'a> {
    /// What its head says.
    pub head: ImageHead,
    /// The whole file.
    pub bytes: &'a [u8],
    ghost sized: { IsSized head bytes.now },
}

impl Image<'_> {
    ghost use Rattle.std.specs.Prelude.{◌≡◌, ℕ, ◌+◌, ◌*◌, ◌/◌, ◌%◌, ◌==◌, ◌<◌, ◌≤◌, length, true};
    ghost use Rattle.st_model.specs.Image.{bit, table_start, form_of, entries_of, entry_start, flags, has_odd_length, has_pointers, is_used, place, word, size, class, body, names, literal_count};
    ghost use Rattle.st_image.specs.inside.Sizes.{IsInside};

    /// The pointer of the class of methods.
    pub const METHOD_CLASS: u16 = 34;

    /// The byte at which the table begins.
    fn table_start(&self) -> usize
        ensures { result ≡ table_start self.now.head }
    {
        512 + (2 * self.head.space as usize).div_ceil(512) * 512
    }

    /// How many entries the table has.
    #[tactic(auto, unfolding(st_model::specs::Image::entries_of, st_model::specs::Image::form_of))]
    pub fn entries(&self) -> usize
        ensures { result ≡ entries_of self.now.head }
    {
        let words = self.head.table as usize;
        if self.head.version == 2 {
            words / 3
        } else {
            words / 2
        }
    }

    /// The byte at which an entry begins.
    #[tactic(auto, using(crate::proofs::Within::entries), unfolding(st_model::specs::Image::entry_start, st_model::specs::Image::entries_of))]
    fn entry_start(&self, k: usize) -> usize
        requires { k < entries_of self.now.head }
        ensures start { result ≡ entry_start self.now.head k }
        ensures within { result + 2 * (form_of self.now.head).width ≤ length self.now.bytes.now }
        ensures some { 2 ≤ (form_of self.now.head).width }
    {
        self.table_start() + 2 * entry_width(self.head) as usize * k
    }

    /// The first word of an entry: its marks.
    #[tactic(auto, unfolding(st_model::specs::Image::flags))]
    fn flags(&self, k: usize) -> u16
        requires { k < entries_of self.now.head }
        ensures { result ≡ flags self.now.head self.now.bytes.now k }
    {
        read16(self.bytes, self.entry_start(k))
    }

    /// Whether an entry has the odd-length mark.
    pub fn has_odd_length(&self, k: usize) -> bool
        requires { k < entries_of self.now.head }
        ensures { result ≡ has_odd_length self.now.head self.now.bytes.now k }
    {
        self.flags(k) >> 7 & 1 == 1
    }

    /// Whether an entry has the pointers mark.
    pub fn has_pointers(&self, k: usize) -> bool
        requires { k < entries_of self.now.head }
        ensures { result ≡ has_pointers self.now.head self.now.bytes.now k }
    {
        self.flags(k) >> 6 & 1 == 1
    }

    /// Whether an entry has the words mark.
    pub fn has_words_mark(&self, k: usize) -> bool
        requires { k < entries_of self.now.head }
        ensures { result ≡ bit 11 (flags self.now.head self.now.bytes.now k) }
    {
        self.flags(k) >> 4 & 1 == 1
    }

    /// Whether an entry is in use.
    #[tactic(auto, unfolding(st_model::specs::Image::is_used))]
    pub fn is_used(&self, k: usize) -> bool
        requires { k < entries_of self.now.head }
        ensures { result ≡ is_used self.now.head self.now.bytes.now k }
    {
        k > 0 && self.flags(k) >> 5 & 1 == 0
    }

    /// Whether a pointer is that of an entry in use.
    #[tactic(auto, unfolding(st_model::specs::Image::names, st_model::specs::Image::is_used))]
    pub fn names(&self, pointer: u32) -> bool
        ensures { result ≡ names self.now.head self.now.bytes.now pointer }
    {
        let k = (pointer / 2) as usize;
        pointer % 2 == 0 && k < self.entries() && self.is_used(k)
    }

    /// The word of the object space at which an entry's object begins.
    #[tactic(auto, unfolding(st_model::specs::Image::place, st_model::specs::Image::form_of))]
    pub fn place(&self, k: usize) -> usize
        requires { k < entries_of self.now.head }
        ensures { result ≡ place self.now.head self.now.bytes.now k }
    {
        let at = self.entry_start(k);
        if self.head.version == 2 {
            read32(self.bytes, at + 2) as usize
        } else {
            let segment = read16(self.bytes, at) % 16;
            usize::from(segment) * 65536 + usize::from(read16(self.bytes, at + 2))
        }
    }

    /// The word at a place of the object space.
    pub fn word(&self, at: usize) -> u16
        requires { at < self.now.head.space }
        ensures { result ≡ word self.now.bytes.now at }
    {
        read16(self.bytes, 512 + 2 * at)
    }

    /// How many words an object has.
    #[tactic(auto, unfolding(st_model::specs::Image::size))]
    pub fn size(&self, k: usize) -> usize
        requires entry { k < entries_of self.now.head }
        requires inside { IsInside self.now.head self.now.bytes.now k }
        ensures size { result ≡ size self.now.head self.now.bytes.now k }
        ensures small { result < 65536 }
    {
        usize::from(self.word(self.place(k)))
    }

    /// The class word of an object.
    #[tactic(auto, unfolding(st_model::specs::Image::class))]
    pub fn class(&self, k: usize) -> u16
        requires entry { k < entries_of self.now.head }
        requires inside { IsInside self.now.head self.now.bytes.now k }
        ensures { result ≡ class self.now.head self.now.bytes.now k }
    {
        self.word(self.place(k) + 1)
    }

    /// Word i of the body of an object.
    #[tactic(auto, unfolding(st_model::specs::Image::body))]
    pub fn body(&self, k: usize, i: usize) -> u16
        requires entry { k < entries_of self.now.head }
        requires inside { IsInside self.now.head self.now.bytes.now k }
        requires range { i + 2 < size self.now.head self.now.bytes.now k }
        ensures { result ≡ body self.now.head self.now.bytes.now k i }
    {
        self.word(self.place(k) + 2 + i)
    }
}
