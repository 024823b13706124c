use std::alloc::{AllocError, Global};

/// Holes of fewer words than this have a list.
const LISTED: usize = 256;

/// Lists of holes by their length, each hole by half its place. They are hints: who takes a hole looks whether it is one.
#[derive(Drop)]
pub struct Holes {
    /// By length the first hole of a list and 1 more, or 0 at its end.
    first: Vec<u32>,
    /// By hole the next one of the same length, in the same way.
    next: Vec<u32>,
}

impl Holes {
    /// Empty lists, for so many halves of places.
    pub fn new(alloc: Global, halves: usize) -> Result<Holes, AllocError> {
        let first = vec![in alloc; 0u32; LISTED]?;
        let next = vec![in alloc; 0u32; halves]?;
        Ok(Holes { first, next })
    }

    /// Puts a hole into the list of its length, where it has one.
    pub fn push(&mut self, len: u32, half: u32) {
        let (n, k) = (len as usize, half as usize);
        if n < self.first.len() && k < self.next.len() && half < u32::MAX {
            self.next[k] = self.first[n];
            self.first[n] = half + 1;
        }
    }

    /// Takes the first hole out of the list of a length.
    pub fn pop(&mut self, len: u32) -> Option<usize> {
        let n = len as usize;
        if n >= self.first.len() || self.first[n] == 0 {
            return None;
        }
        let k = (self.first[n] - 1) as usize;
        if k >= self.next.len() {
            return None;
        }
        self.first[n] = self.next[k];
        Some(k)
    }

    /// Empties all lists.
    pub fn clear(&mut self) {
        for n in 0..self.first.len() {
            self.first[n] = 0;
        }
    }
}
