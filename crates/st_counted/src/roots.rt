ghost use Rattle.std.specs.Prelude.{◌≡◌, ◌≢◌, ◌<◌, ◌≤◌, ℕ, length, slice_index_or, IfOk};
ghost use Rattle.st_model.specs.declared.place.RootPlace.TheVariants.{Pending};
ghost use Rattle.st_model.specs.Values.{value};
ghost use Rattle.st_model.specs.View.{held_at, with_held, IsPlace, nothing_held};
ghost use Rattle.st_counted.specs.inside.Words.{nil_word};

use st_model::{Oop, RootPlace};
use std::alloc::{AllocError, Global};

/// What is held, but for the pending signals.
#[derive(Clone, Copy)]
pub struct Places {
    /// The active context.
    pub active: Oop,
    /// The home context.
    pub home: Oop,
    /// The method that runs.
    pub method: Oop,
    /// The receiver.
    pub receiver: Oop,
    /// The process that waits to become active.
    pub new_process: Oop,
    /// The Form that is the display.
    pub display: Oop,
    /// The Form that is the cursor.
    pub cursor: Oop,
    /// The semaphore that an input word signals.
    pub input_semaphore: Oop,
    /// The semaphore that the clock signals.
    pub timer: Oop,
    /// The semaphore that want of space signals.
    pub low_space: Oop,
}

/// What is held.
#[derive(Drop)]
pub struct Roots {
    /// What is held at the places that hold one object each.
    pub places: Places,
    /// The semaphores of the pending signals.
    pub pending: Vec<Oop>,
    /// From here on no signal is pending.
    pub pending_end: u32,
    ghost long: { length pending.items ≡ 4096 },
    ghost within: { pending_end ≤ 4096 },
    ghost none: { (k : ℕ) → pending_end ≤ k → slice_index_or pending.items k nil_word ≡ nil_word },
}

impl Places {
    /// nil at every place.
    const NOTHING: Places = Places {
        active: Oop::NIL,
        home: Oop::NIL,
        method: Oop::NIL,
        receiver: Oop::NIL,
        new_process: Oop::NIL,
        display: Oop::NIL,
        cursor: Oop::NIL,
        input_semaphore: Oop::NIL,
        timer: Oop::NIL,
        low_space: Oop::NIL,
    };
}

/// Where the pending signals end once o stands at place k.
fn end_with(end: u32, k: u16, o: Oop) -> u32
    requires end { end ≤ 4096 }
    requires place { k < 4096 }
    ensures within { result ≤ 4096 }
    ensures here { result ≤ k → o ≡ nil_word }
    ensures after { (j : ℕ) → result ≤ j → j ≢ k → end ≤ j }
{
    let k = u32::from(k);
    if o != Oop::NIL {
        end.max(k + 1)
    } else if k + 1 == end {
        k
    } else {
        end
    }
}

/// Words that are all nil.
fn nil_words(alloc: Global, len: usize) -> Result<Vec<Oop>, AllocError>
    ensures len { IfOk result (λ v. length v.items ≡ len) }
    ensures nil { IfOk result (λ v. (k : ℕ) → slice_index_or v.items k nil_word ≡ nil_word) }
{
    vec![in alloc; Oop::NIL; len]
}

impl Roots {
    ghost use Rattle.st_counted.specs.inside.Held.{held_of};

    /// Nothing held.
    pub fn new(alloc: Global) -> Result<Roots, AllocError>
        ensures { IfOk result (λ r. held_of r ≡ nothing_held) }
    {
        let pending = nil_words(alloc, 4096)?;
        Ok(Roots {
            places: Places::NOTHING,
            pending,
            pending_end: 0,
        })
    }

    /// What is held at a place.
    #[inline(always)]
    pub fn held(&self, place: RootPlace) -> Oop
        requires { IsPlace place }
        ensures { value result ≡ held_at (held_of self.now) place }
    {
        match place {
            RootPlace::Active => self.places.active,
            RootPlace::Home => self.places.home,
            RootPlace::Method => self.places.method,
            RootPlace::Receiver => self.places.receiver,
            RootPlace::NewProcess => self.places.new_process,
            RootPlace::Display => self.places.display,
            RootPlace::Cursor => self.places.cursor,
            RootPlace::InputSemaphore => self.places.input_semaphore,
            RootPlace::Timer => self.places.timer,
            RootPlace::LowSpace => self.places.low_space,
            RootPlace::Pending(k) => self.pending[usize::from(k)],
        }
    }

    /// Holds o at a place.
    #[inline(always)]
    pub fn hold(&mut self, place: RootPlace, o: Oop)
        requires { IsPlace place }
        ensures { held_of self.new ≡ with_held (held_of self.old) place (value o) }
    {
        match place {
            RootPlace::Active => self.places.active = o,
            RootPlace::Home => self.places.home = o,
            RootPlace::Method => self.places.method = o,
            RootPlace::Receiver => self.places.receiver = o,
            RootPlace::NewProcess => self.places.new_process = o,
            RootPlace::Display => self.places.display = o,
            RootPlace::Cursor => self.places.cursor = o,
            RootPlace::InputSemaphore => self.places.input_semaphore = o,
            RootPlace::Timer => self.places.timer = o,
            RootPlace::LowSpace => self.places.low_space = o,
            RootPlace::Pending(k) => self.hold_pending(k, o),
        }
    }

    fn hold_pending(&mut self, k: u16, o: Oop)
        requires { k < 4096 }
        ensures { held_of self.new ≡ with_held (held_of self.old) (Pending k) (value o) }
    {
        self.pending[usize::from(k)] = o;
        self.pending_end = end_with(self.pending_end, k, o);
    }
}
