ghost use Rattle.std.specs.Prelude.{◌≡◌, ◌+◌, ◌≤◌, ◌<◌, ◌/◌, ◌↔◌, ℕ, Some, None, true, is_some, length, take, drop, slice_index, slice_index_or, slice_set, IfOk, IfSome, IfNone, IsTrue};
ghost use Rattle.st_model.specs.declared.oop.Oop.{Oop as Pointer};
ghost use Rattle.st_cells.specs.inside.Words.{ReadsBytes, with_run, with_bytes};
ghost use Rattle.st_table.specs.inside.Entries.{place};
ghost use Rattle.st_heap.specs.inside.Blocks.{held};
ghost use Rattle.st_heap.specs.inside.Heaps.{words_of, blocks_of};
ghost use Rattle.st_heap.specs.inside.Stored.{slot, stored, stored_all, HasStored, IsUnused, IsLeastUnused, with_cell, with_cells, Takes, exchanged_stored, used_of, AreTied};

use crate::heap::Heap;
use st_model::{Demand, Kind, Oop};
use st_table::{Entry, Table};
use std::alloc::{AllocError, Global};

/// Blocks of words, each stored under the pointer of an object. Clauses see it as a list (`stored_of`), which has at each
/// place what is stored under the pointer that is twice the place, or none.
#[derive(Drop)]
pub struct BlockStore {
    /// The blocks.
    heap: Heap,
    /// For each pointer under which one is stored, its place, its kind and its odd mark.
    table: Table,
    /// How many blocks there are, and how many words they have.
    pub used: Demand,
    pub ghost tied: { AreTied table (blocks_of heap) },
    pub ghost places: { length table ≡ 32768 },
    pub ghost counted: { used ≡ used_of (stored_all (words_of heap) (blocks_of heap) table) },
    ghost held: { held (blocks_of heap) ≡ used.words },
}

impl BlockStore {
    ghost use Rattle.st_heap.specs.inside.Stores.{stored_of, capacity_of};
    ghost use Rattle.st_heap.specs.inside.Places.{place_at, SamePlaces, SameOtherPlaces};
    ghost use Rattle.st_heap.specs.inside.Links.{next_of, before_of, SameLinks, SameOtherLinks, WithNext, WithBefore};

    /// Nothing stored, and so many words for it.
    pub fn new(alloc: Global, words: u32) -> Result<BlockStore, AllocError>
        ensures empty { IfOk result (λ s. (k : ℕ) → slot (stored_of s) k ≡ None) }
        ensures capacity { IfOk result (λ s. capacity_of s ≡ words) }
    {
        let heap = Heap::new(alloc, words)?;
        let table = empty_table(alloc, 32767)?;
        Ok(BlockStore {
            heap,
            table,
            used: Demand {
                entries: 0,
                words: 0,
            },
        })
    }

    /// Whether something is stored under a pointer.
    pub fn has(&self, o: Oop) -> bool
        ensures { IsTrue result ↔ HasStored (stored_of self.now) o }
    {
        self.table.has(o)
    }

    /// The kind of what is stored.
    pub fn kind(&self, o: Oop) -> Kind
        requires { HasStored (stored_of self.now) o }
        ensures { result ≡ (stored (stored_of self.now) (place o)).kind }
    {
        self.table.entry(o).kind
    }

    /// Whether the last byte of its last word is no part of it.
    pub fn odd(&self, o: Oop) -> bool
        requires { HasStored (stored_of self.now) o }
        ensures { result ≡ (stored (stored_of self.now) (place o)).odd }
    {
        self.table.entry(o).odd
    }

    /// The place of its block.
    pub fn place_of(&self, o: Oop) -> u32
        requires { HasStored (stored_of self.now) o }
        ensures { place_at self.now (place o) ≡ Some result }
    {
        self.table.entry(o).at
    }

    /// Word i of its block, which stands at a place.
    pub fn placed_word(&self, _o: Oop, at: u32, i: u32) -> u16
        requires there { HasStored (stored_of self.now) _o }
        requires place { place_at self.now (place _o) ≡ Some at }
        requires range { i < length (stored (stored_of self.now) (place _o)).cells }
        ensures { result ≡ slice_index (stored (stored_of self.now) (place _o)).cells i }
    {
        self.heap.word(at + i)
    }

    /// Writes word i of its block, which stands at a place.
    pub fn set_placed_word(&mut self, _o: Oop, at: u32, i: u32, w: u16)
        requires there { HasStored (stored_of self.old) _o }
        requires place { place_at self.old (place _o) ≡ Some at }
        requires range { i < length (stored (stored_of self.old) (place _o)).cells }
        ensures stored { let all = stored_of self.old in
            stored_of self.new ≡ slice_set all (place _o) (Some (with_cell (stored all (place _o)) i w)) }
        ensures capacity { capacity_of self.new ≡ capacity_of self.old }
        ensures links { SameLinks self.old self.new }
        ensures places { SamePlaces self.old self.new }
    {
        self.heap.set_word(at + i, w);
    }

    /// Word i of its block.
    pub fn word(&self, o: Oop, i: u32) -> u16
        requires there { HasStored (stored_of self.now) o }
        requires range { i < length (stored (stored_of self.now) (place o)).cells }
        ensures { result ≡ slice_index (stored (stored_of self.now) (place o)).cells i }
    {
        let at = self.table.entry(o).at;
        self.heap.word(at + i)
    }

    /// Writes word i of its block.
    pub fn set_word(&mut self, o: Oop, i: u32, w: u16)
        requires there { HasStored (stored_of self.old) o }
        requires range { i < length (stored (stored_of self.old) (place o)).cells }
        ensures stored { let all = stored_of self.old in
            stored_of self.new ≡ slice_set all (place o) (Some (with_cell (stored all (place o)) i w)) }
        ensures capacity { capacity_of self.new ≡ capacity_of self.old }
        ensures places { SamePlaces self.old self.new }
        ensures links { SameLinks self.old self.new }
    {
        let at = self.table.entry(o).at;
        self.heap.set_word(at + i, w);
    }

    /// Reads words of its block from word i on, as many as there is room for.
    pub fn read(&self, o: Oop, i: u32, into: &mut [u16])
        requires there { HasStored (stored_of self.now) o }
        requires range { i + length into.old ≤ length (stored (stored_of self.now) (place o)).cells }
        ensures { into.new ≡ take (length into.old) (drop i (stored (stored_of self.now) (place o)).cells) }
    {
        let at = self.table.entry(o).at;
        self.heap.read(at + i, into);
    }

    /// Writes words of its block from word i on.
    pub fn write(&mut self, o: Oop, i: u32, words: &[u16])
        requires there { HasStored (stored_of self.old) o }
        requires range { i + length words.now ≤ length (stored (stored_of self.old) (place o)).cells }
        ensures stored { let all = stored_of self.old in let s = stored all (place o) in
            stored_of self.new
            ≡ slice_set all (place o) (Some (with_cells s (with_run s.cells i words.now))) }
        ensures capacity { capacity_of self.new ≡ capacity_of self.old }
        ensures links { SameLinks self.old self.new }
    {
        let at = self.table.entry(o).at;
        self.heap.write(at + i, words);
    }

    /// Reads bytes from place `first` on, as many as there is room for, where the words behind the first two have two each.
    pub fn read_bytes(&self, o: Oop, first: u32, into: &mut [u8])
        requires there { HasStored (stored_of self.now) o }
        requires range { 2 + (first + length into.old + 1) / 2
            ≤ length (stored (stored_of self.now) (place o)).cells }
        ensures { ReadsBytes (stored (stored_of self.now) (place o)).cells 2 first (length into.old)
            into.new }
    {
        let at = self.table.entry(o).at;
        self.heap.read_bytes(at + 2, first, into);
    }

    /// Writes bytes from place `first` on, where the words behind the first two have two each.
    pub fn write_bytes(&mut self, o: Oop, first: u32, bytes: &[u8])
        requires there { HasStored (stored_of self.old) o }
        requires range { 2 + (first + length bytes.now + 1) / 2
            ≤ length (stored (stored_of self.old) (place o)).cells }
        ensures stored { let all = stored_of self.old in let s = stored all (place o) in
            stored_of self.new
            ≡ slice_set all (place o) (Some (with_cells s (with_bytes s.cells 2 first bytes.now))) }
        ensures capacity { capacity_of self.new ≡ capacity_of self.old }
        ensures links { SameLinks self.old self.new }
    {
        let at = self.table.entry(o).at;
        self.heap.write_bytes(at + 2, first, bytes);
    }

    /// Stores something under an unused pointer, in n words; what the words are is not said.
    #[inline(always)]
    pub fn take(&mut self, o: Oop, kind: Kind, odd: bool, n: u32)
        requires unused { IsUnused (stored_of self.old) o }
        requires size { 2 ≤ n }
        requires room { (used_of (stored_of self.old)).words + n ≤ capacity_of self.old }
        ensures stored { Takes (stored_of self.old) (stored_of self.new) (place o) kind odd n }
        ensures capacity { capacity_of self.new ≡ capacity_of self.old }
        ensures links { SameOtherLinks self.old self.new (place o) }
    {
        let at = self.heap.take(&mut self.table, o, n);
        let entry = Entry {
            at,
            kind,
            odd,
            next: Oop(0),
            before: Oop(0),
        };
        self.used.entries += 1;
        self.used.words += n;
        self.table.take_entry(o, entry);
    }

    /// Takes what is stored under a pointer, in n words, away.
    pub fn free(&mut self, o: Oop, n: u32)
        requires there { HasStored (stored_of self.old) o }
        requires size { n ≡ length (stored (stored_of self.old) (place o)).cells }
        ensures stored { stored_of self.new ≡ slice_set (stored_of self.old) (place o) None }
        ensures capacity { capacity_of self.new ≡ capacity_of self.old }
        ensures places { SameOtherPlaces self.old self.new (place o) }
        ensures links { SameOtherLinks self.old self.new (place o) }
    {
        let at = self.table.entry(o).at;
        self.heap.give(at, n);
        self.table.free_entry(o);
        self.used.entries -= 1;
        self.used.words -= n;
    }

    /// Exchanges what is stored under two pointers.
    pub fn exchange(&mut self, a: Oop, b: Oop)
        requires first { HasStored (stored_of self.old) a }
        requires second { HasStored (stored_of self.old) b }
        ensures stored { stored_of self.new ≡ exchanged_stored (stored_of self.old) (place a) (place b) }
        ensures capacity { capacity_of self.new ≡ capacity_of self.old }
        ensures links { SameLinks self.old self.new }
    {
        let first = self.table.entry(a);
        let second = self.table.entry(b);
        self.heap.exchange(&mut self.table, a, b);
        self.table.set_entry(
            a,
            Entry {
                at: second.at,
                kind: second.kind,
                odd: second.odd,
                ..first
            },
        );
        self.table.set_entry(
            b,
            Entry {
                at: first.at,
                kind: first.kind,
                odd: first.odd,
                ..second
            },
        );
    }

    /// The pointer of what follows an object in the list that it is in, or 0.
    pub fn next(&self, o: Oop) -> Oop
        requires { HasStored (stored_of self.now) o }
        ensures { place result ≡ next_of self.now (place o) }
    {
        self.table.entry(o).next
    }

    /// The pointer of what stands before it there, or 0.
    pub fn before(&self, o: Oop) -> Oop
        requires { HasStored (stored_of self.now) o }
        ensures { place result ≡ before_of self.now (place o) }
    {
        self.table.entry(o).before
    }

    /// Has another follow what is stored at the place of a pointer.
    pub fn set_next(&mut self, o: Oop, next: Oop)
        requires { is_some (slot (stored_of self.old) (place o)) ≡ true }
        ensures stored { stored_of self.new ≡ stored_of self.old }
        ensures capacity { capacity_of self.new ≡ capacity_of self.old }
        ensures links { WithNext self.old self.new (place o) (place next) }
        ensures places { SamePlaces self.old self.new }
    {
        self.table.set_next(o, next);
    }

    /// Has another stand before it.
    pub fn set_before(&mut self, o: Oop, before: Oop)
        requires { is_some (slot (stored_of self.old) (place o)) ≡ true }
        ensures stored { stored_of self.new ≡ stored_of self.old }
        ensures capacity { capacity_of self.new ≡ capacity_of self.old }
        ensures links { WithBefore self.old self.new (place o) (place before) }
        ensures places { SamePlaces self.old self.new }
    {
        self.table.set_before(o, before);
    }

    /// The least pointer under which nothing is stored.
    pub fn least_free(&self) -> Option<Oop>
        ensures least { IfSome result (IsLeastUnused (stored_of self.now)) }
        ensures none { IfNone result ((p : Pointer) → ¬ IsUnused (stored_of self.now) p) }
    {
        self.table.least_free()
    }
}

/// A table without entries.
fn empty_table(alloc: Global, entries: u32) -> Result<Table, AllocError>
    requires { entries ≤ 32767 }
    ensures length { IfOk result (λ t. length t ≡ entries + 1) }
    ensures empty { IfOk result (λ t. (k : ℕ) → slice_index_or t k None ≡ None) }
{
    Table::new(alloc, entries)
}
