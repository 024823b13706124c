//! A region of words of 16 bits, seen as a list.
#![tactic(auto)]

ghost use Rattle.std.specs.Prelude.{◌≡◌, ℕ, ◌+◌, ◌<◌, ◌≤◌, ◌/◌, length, replicate, take, drop, slice_index, slice_set, IfOk};
ghost use Rattle.st_cells.specs.inside.Words.{slid, with_run, byte_of, ReadsBytes, with_byte, with_bytes};

mod region;

use crate::region::Region;
use std::alloc::{AllocError, Global};
use std::marker::Model;

/// A region of words, whose number never changes. Clauses see it as the list of its words.
pub struct Cells {
    region: Region,
    alloc: Global,
}

impl Model for Cells {
    ghost use Rattle.std.specs.Prelude.{◌<◌, ◌^◌, ℕ, List, length};

    ghost Value = { List ℕ };

    ghost view = { λ c. c.region.words };

    ghost invariant = { λ c. length c.region.words < 2 ^ 32 };
}

impl Drop for Cells {
    fn drop(self) {
        let Cells { region, alloc } = self;
        region.free(&alloc);
    }
}

impl Cells {
    /// A region of n words, which are all 0.
    pub fn with_len(alloc: Global, n: u32) -> Result<Cells, AllocError>
        ensures { IfOk result (λ c. c ≡ replicate n 0) }
    {
        let region = Region::zeros(&alloc, n as usize)?;
        Ok(Cells { region, alloc })
    }

    /// The word at a place.
    pub fn get(&self, i: u32) -> u16
        requires { i < length self.now }
        ensures { result ≡ slice_index self.now i }
    {
        self.region.words()[i as usize]
    }

    /// Writes the word at a place.
    pub fn set(&mut self, i: u32, w: u16)
        requires { i < length self.old }
        ensures { self.new ≡ slice_set self.old i w }
    {
        self.region.words_mut()[i as usize] = w;
    }

    /// Reads the words from a place on, as many as there is room for.
    pub fn read(&self, at: u32, into: &mut [u16])
        requires { at + length into.old ≤ length self.now }
        ensures { into.new ≡ take (length into.old) (drop at self.now) }
    {
        let first = at as usize;
        into.copy_from_slice(&self.region.words()[first..first + into.len()]);
    }

    /// Writes words from a place on.
    pub fn write(&mut self, at: u32, words: &[u16])
        requires { at + length words.now ≤ length self.old }
        ensures length { length self.new ≡ length self.old }
        ensures words { self.new ≡ with_run self.old at words.now }
    {
        write_run(self.region.words_mut(), at as usize, words);
    }

    /// Reads bytes from place `first` on, as many as there is room for. The words from `at` on have two each, the first one in
    /// the upper half.
    pub fn read_bytes(&self, at: u32, first: u32, into: &mut [u8])
        requires { at + (first + length into.old + 1) / 2 ≤ length self.now }
        ensures { ReadsBytes self.now at first (length into.old) into.new }
    {
        let words = self.region.words();
        for k in 0..into.len() {
            let place = first as usize + k;
            into[k] = byte_of(words[at as usize + place / 2], place);
        }
    }

    /// Writes bytes from place `first` on, where the words from `at` on have two each.
    pub fn write_bytes(&mut self, at: u32, first: u32, bytes: &[u8])
        requires { at + (first + length bytes.now + 1) / 2 ≤ length self.old }
        ensures length { length self.new ≡ length self.old }
        ensures words { self.new ≡ with_bytes self.old at first bytes.now }
    {
        write_bytes(self.region.words_mut(), at as usize, first as usize, bytes);
    }

    /// Moves n words down, in rising order of places: those from `from` on come to `to`. All words outside of the n at
    /// `to` stay.
    pub fn slide_down(&mut self, from: u32, to: u32, n: u32)
        requires down { to ≤ from }
        requires within { from + n ≤ length self.old }
        ensures length { length self.new ≡ length self.old }
        ensures words { (i : ℕ) → slice_index self.new i ≡ slid (slice_index self.old) from to n i }
    {
        slide(
            self.region.words_mut(),
            from as usize,
            to as usize,
            n as usize,
        );
    }

    /// The number of words.
    pub fn len(&self) -> u32
        ensures { result ≡ length self.now }
    {
        self.region.words().len() as u32
    }
}

/// Writes a run of words over those of a list from a place on.
fn write_run(list: &mut [u16], at: usize, run: &[u16])
    requires { at + length run.now ≤ length list.old }
    ensures length { length list.new ≡ length list.old }
    ensures words { list.new ≡ with_run list.old at run.now }
{
    list[at..at + run.len()].copy_from_slice(run);
}

/// Moves n words of a list down, in rising order of places.
fn slide(list: &mut [u16], from: usize, to: usize, n: usize)
    requires down { to ≤ from }
    requires within { from + n ≤ length list.old }
    ensures length { length list.new ≡ length list.old }
    ensures words { (i : ℕ) → slice_index list.new i ≡ slid (slice_index list.old) from to n i }
{
    for k in 0..n {
        list[to + k] = list[from + k];
    }
}

/// The byte of a word for a place: the upper half for an even one.
fn byte_of(word: u16, place: usize) -> u8
    ensures { result ≡ byte_of word place }
{
    if place % 2 == 0 {
        (word / 256) as u8
    } else {
        (word % 256) as u8
    }
}

/// A word with another byte in the half for a place.
fn with_byte(word: u16, place: usize, byte: u8) -> u16
    ensures { result ≡ with_byte word place byte }
{
    let byte = u16::from(byte);
    if place % 2 == 0 {
        byte * 256 + word % 256
    } else {
        word / 256 * 256 + byte
    }
}

/// Writes bytes from place `first` on, where the words of a list from `at` on have two each.
fn write_bytes(list: &mut [u16], at: usize, first: usize, bytes: &[u8])
    requires small { (at < 4294967296) × (first < 4294967296) }
    requires within { at + (first + length bytes.now + 1) / 2 ≤ length list.old }
    ensures length { length list.new ≡ length list.old }
    ensures words { list.new ≡ with_bytes list.old at first bytes.now }
{
    for k in 0..bytes.len() {
        let byte = first + k;
        let place = at + byte / 2;
        list[place] = with_byte(list[place], byte, bytes[k]);
    }
}
