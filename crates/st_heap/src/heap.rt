ghost use Rattle.std.specs.Prelude.{◌≡◌, ◌≢◌, ◌+◌, ◌<◌, ◌≤◌, ◌/◌, ◌↔◌, length, replicate, take, drop, slice_index, slice_set, IfOk, IfSome, IfNone, IsTrue};
ghost use Rattle.st_cells.specs.inside.Words.{with_run, ReadsBytes, with_bytes};
ghost use Rattle.st_table.specs.inside.Entries.{HasEntry, IsFree};
ghost use Rattle.st_heap.specs.inside.Blocks.{none, block, block_at, held, HoldsPlace, HoldsRun, IsLaid, IsTied, IsClosedBelow, IsAbove, IsBlock, given_back, moved, exchanged_blocks, exchanged_entries};

use crate::block::Block;
use crate::holes::Holes;
use st_cells::Cells;
use st_model::Oop;
use st_table::{Entry, Table};
use std::alloc::{AllocError, Global};

/// A heap. Clauses see its words (`words_of`) and its blocks by half of their place (`blocks_of`).
#[derive(Drop)]
pub struct Heap {
    words: Cells,
    blocks: Vec<Block>,
    holes: Holes,
    /// The place from which on no block stands.
    end: u32,
    /// The number of words that no block holds.
    free: u32,
    pub ghost laid: { IsLaid words blocks.items end free },
}

impl Heap {
    ghost use Rattle.st_heap.specs.inside.Heaps.{words_of, blocks_of, Fits, Keeps, Takes, TiedWith, SameRoom, SameContents, IsClosedUp, held_from};

    /// A heap of so many words, without blocks.
    pub fn new(alloc: Global, words: u32) -> Result<Heap, AllocError>
        ensures words { IfOk result (λ h. words_of h ≡ replicate words 0) }
        ensures blocks { IfOk result (λ h. blocks_of h ≡ replicate (words / 2 + 1) none) }
    {
        let halves = words as usize / 2 + 1;
        let holes = Holes::new(alloc, halves)?;
        let blocks = no_blocks(alloc, halves)?;
        Ok(Heap {
            words: Cells::with_len(alloc, words)?,
            blocks,
            holes,
            end: 0,
            free: words,
        })
    }

    /// Whether so many words are free, in whatever holes.
    pub fn fits(&self, n: u32) -> bool
        ensures { IsTrue result ↔ Fits self.now n }
    {
        n <= self.free
    }

    /// The word at a place that a block holds.
    pub fn word(&self, at: u32) -> u16
        requires { HoldsPlace (blocks_of self.now) at }
        ensures { result ≡ slice_index (words_of self.now) at }
    {
        self.words.get(at)
    }

    /// Writes the word at a place that a block holds.
    pub fn set_word(&mut self, at: u32, w: u16)
        requires { HoldsPlace (blocks_of self.old) at }
        ensures words { words_of self.new ≡ slice_set (words_of self.old) at w }
        ensures blocks { blocks_of self.new ≡ blocks_of self.old }
    {
        self.words.set(at, w);
    }

    /// Reads words that a block holds, from a place on, as many as there is room for.
    pub fn read(&self, at: u32, into: &mut [u16])
        requires { HoldsRun (blocks_of self.now) at (length into.old) }
        ensures { into.new ≡ take (length into.old) (drop at (words_of self.now)) }
    {
        self.words.read(at, into);
    }

    /// Writes words that a block holds, from a place on.
    pub fn write(&mut self, at: u32, words: &[u16])
        requires { HoldsRun (blocks_of self.old) at (length words.now) }
        ensures words { words_of self.new ≡ with_run (words_of self.old) at words.now }
        ensures blocks { blocks_of self.new ≡ blocks_of self.old }
    {
        self.words.write(at, words);
    }

    /// Reads bytes from place `first` on, as many as there is room for, where the words that a block holds from `at` on have two
    /// each, the first one in the upper half.
    pub fn read_bytes(&self, at: u32, first: u32, into: &mut [u8])
        requires { HoldsRun (blocks_of self.now) at ((first + length into.old + 1) / 2) }
        ensures { ReadsBytes (words_of self.now) at first (length into.old) into.new }
    {
        self.words.read_bytes(at, first, into);
    }

    /// Writes bytes from place `first` on, where the words that a block holds from `at` on have two each.
    pub fn write_bytes(&mut self, at: u32, first: u32, bytes: &[u8])
        requires { HoldsRun (blocks_of self.old) at ((first + length bytes.now + 1) / 2) }
        ensures words { words_of self.new ≡ with_bytes (words_of self.old) at first bytes.now }
        ensures blocks { blocks_of self.new ≡ blocks_of self.old }
    {
        self.words.write_bytes(at, first, bytes);
    }

    /// Gives back the block of n words at a place.
    pub fn give(&mut self, at: u32, n: u32)
        requires { IsBlock (blocks_of self.old) at n }
        ensures words { words_of self.new ≡ words_of self.old }
        ensures blocks { blocks_of self.new ≡ given_back (blocks_of self.old) at }
        ensures held { held (blocks_of self.new) + n ≡ held (blocks_of self.old) }
    {
        let k = at as usize / 2;
        let block = read_block(&self.blocks, k);
        self.blocks[k] = Block {
            owner: Oop(0),
            ..block
        };
        self.free += n;
        self.holes.push(n, at / 2);
    }

    /// Finds n words for the object of a pointer: a hole of just this length, or words beyond all blocks. Where neither is
    /// there it closes up first. Answers their place, for the pointer's entry.
    #[inline(always)]
    pub fn take(&mut self, t: &mut Table, o: Oop, n: u32) -> u32
        requires fits { Fits self.old n }
        requires size { 2 ≤ n }
        requires free { IsFree t.old o }
        requires tied { IsTied t.old (blocks_of self.old) }
        ensures block { block_at (blocks_of self.new) result ≡ record { owner = o; at = result; len = n } }
        ensures tied { TiedWith self.new t.new o result }
        ensures keeps { Keeps self.old t.old self.new t.new }
        ensures held { held (blocks_of self.new) ≡ held (blocks_of self.old) + n }
        ensures length { length (words_of self.new) ≡ length (words_of self.old) }
    {
        match self.reuse(o, n) {
            Some(at) => at,
            None => {
                self.make_room(t, n);
                self.extend(o, n)
            }
        }
    }

    /// Moves all blocks down, in the order of their places, so that all free words lie beyond them.
    #[inline(never)]
    pub fn close_up(&mut self, t: &mut Table)
        requires { IsTied t.old (blocks_of self.old) }
        ensures tied { IsTied t.new (blocks_of self.new) }
        ensures keeps { Keeps self.old t.old self.new t.new }
        ensures same { SameRoom self.old self.new }
        ensures closed { IsClosedUp self.new }
    {
        let mut to = 0;
        for k in 0..self.blocks.len() {
            to = self.close(t, k, to);
        }
        self.end = to;
        self.holes.clear();
    }

    /// Exchanges the owners of the blocks of two pointers, and the places in their entries.
    pub fn exchange(&mut self, t: &mut Table, a: Oop, b: Oop)
        requires first { HasEntry t.old a }
        requires second { HasEntry t.old b }
        requires tied { IsTied t.old (blocks_of self.old) }
        ensures words { words_of self.new ≡ words_of self.old }
        ensures blocks { blocks_of self.new ≡ exchanged_blocks (blocks_of self.old) t.old a b }
        ensures entries { t.new ≡ exchanged_entries t.old a b }
        ensures tied { IsTied t.new (blocks_of self.new) }
        ensures held { held (blocks_of self.new) ≡ held (blocks_of self.old) }
    {
        let (first, second) = (t.entry(a), t.entry(b));
        let (i, j) = (first.at as usize / 2, second.at as usize / 2);
        let (block, other) = (read_block(&self.blocks, i), read_block(&self.blocks, j));
        self.blocks[i] = Block { owner: b, ..block };
        self.blocks[j] = Block { owner: a, ..other };
        t.set_entry(
            a,
            Entry {
                at: second.at,
                ..first
            },
        );
        t.set_entry(
            b,
            Entry {
                at: first.at,
                ..second
            },
        );
    }

    /// Closes up where fewer than n words lie beyond all blocks.
    fn make_room(&mut self, t: &mut Table, n: u32)
        requires fits { Fits self.old n }
        requires tied { IsTied t.old (blocks_of self.old) }
        ensures room { self.new.end + n ≤ length (words_of self.new) }
        ensures tied { IsTied t.new (blocks_of self.new) }
        ensures keeps { Keeps self.old t.old self.new t.new }
        ensures same { SameRoom self.old self.new }
    {
        if self.words.len() - self.end < n {
            self.close_up(t);
        }
    }

    /// Closes up what stands at a half of the list, where all before it ends at a place. Answers where it ends then.
    fn close(&mut self, t: &mut Table, k: usize, to: u32) -> u32
        requires within { k < length (blocks_of self.old) }
        requires closed { IsClosedBelow (blocks_of self.old) k to }
        requires above { IsAbove (blocks_of self.old) k to }
        requires tied { IsTied t.old (blocks_of self.old) }
        ensures tied { IsTied t.new (blocks_of self.new) }
        ensures keeps { Keeps self.old t.old self.new t.new }
        ensures same { SameRoom self.old self.new }
        ensures closed { IsClosedBelow (blocks_of self.new) (k + 1) result }
        ensures above { IsAbove (blocks_of self.new) (k + 1) result }
        ensures sum { result + held_from self.new (k + 1) ≡ to + held_from self.old k }
        ensures size { length (blocks_of self.new) ≡ length (blocks_of self.old) }
    {
        let block = read_block(&self.blocks, k);
        if block.owner.0 == 0 {
            self.blocks[k] = Block::NONE;
            return to;
        }
        self.move_block(t, k, to);
        to + block.len
    }

    /// Moves the block at a half of the list down to a place at which all before it ends.
    fn move_block(&mut self, t: &mut Table, k: usize, to: u32)
        requires within { k < length (blocks_of self.old) }
        requires owned { (block (blocks_of self.old) k).owner.0 ≢ 0 }
        requires down { to ≤ (block (blocks_of self.old) k).at }
        requires closed { IsClosedBelow (blocks_of self.old) k to }
        requires tied { IsTied t.old (blocks_of self.old) }
        ensures tied { IsTied t.new (blocks_of self.new) }
        ensures keeps { Keeps self.old t.old self.new t.new }
        ensures same { SameRoom self.old self.new }
        ensures blocks { blocks_of self.new ≡ moved (blocks_of self.old) k to }
    {
        let block = read_block(&self.blocks, k);
        let entry = t.entry(block.owner);
        self.words.slide_down(block.at, to, block.len);
        self.blocks[k] = Block::NONE;
        self.blocks[to as usize / 2] = Block { at: to, ..block };
        t.set_entry(block.owner, Entry { at: to, ..entry });
    }

    /// A hole of exactly n words becomes a block.
    fn reuse(&mut self, o: Oop, n: u32) -> Option<u32>
        requires size { 2 ≤ n }
        requires owner { o.0 ≢ 0 }
        requires fits { Fits self.old n }
        ensures taken { IfSome result (λ at. Takes self.old self.new o at n) }
        ensures none { IfNone result (SameContents self.old self.new) }
    {
        let k = self.holes.pop(n)?;
        if k >= self.blocks.len() {
            return None;
        }
        let block = read_block(&self.blocks, k);
        if block.owner.0 != 0 || block.len != n {
            return None;
        }
        self.blocks[k] = Block { owner: o, ..block };
        self.free -= n;
        Some(block.at)
    }

    /// The n words from the end on become a block.
    fn extend(&mut self, o: Oop, n: u32) -> u32
        requires size { 2 ≤ n }
        requires owner { o.0 ≢ 0 }
        requires room { self.old.end + n ≤ length (words_of self.old) }
        requires fits { Fits self.old n }
        ensures { Takes self.old self.new o result n }
    {
        let at = self.end;
        self.blocks[at as usize / 2] = Block {
            owner: o,
            at,
            len: n,
        };
        self.end += n;
        self.free -= n;
        at
    }
}

/// What stands at a half of the list.
fn read_block(blocks: &Vec<Block>, k: usize) -> Block
    requires { k < length blocks.now.items }
    ensures { result ≡ block blocks.now.items k }
{
    blocks[k]
}

/// Halves of places at which no blocks stand.
fn no_blocks(alloc: Global, n: usize) -> Result<Vec<Block>, AllocError>
    ensures { IfOk result (λ v. v.items ≡ replicate n none) }
{
    vec![in alloc; Block::NONE; n]
}
