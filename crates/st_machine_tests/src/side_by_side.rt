use crate::image::{Image, memory_of};
use crate::rows::{Call, does};
use st_counted::CountedLoader;
use st_memory::{Loader, Memory};
use st_model::{Kind, Oop, RootPlace};
use st_plain::PlainLoader;
use std::alloc::AllocGlobal;
use std::process::Abort;

/// How many thousands of calls are made.
const THOUSANDS: u32 = 1000;

/// A fixed generator of numbers below 65536.
#[derive(Drop)]
pub struct Numbers {
    pub state: u32,
}

impl Numbers {
    pub fn next(&mut self) -> u32 {
        self.state = self.state.wrapping_mul(1664525).wrapping_add(1013904223);
        self.state >> 16
    }

    /// A pointer, of an object or of none.
    fn pointer(&mut self) -> u16 {
        (2 * (self.next() % 600 + 1)) as u16
    }
}

/// One call; once in about a thousand it is `settle`.
fn call(numbers: &mut Numbers) -> Call {
    let choice = numbers.next();
    let first = numbers.pointer();
    let second = numbers.pointer();
    let number = numbers.next() % 5;
    match choice % 1000 {
        0 => Call::Settle,
        1..=300 => Call::Make(1, 16, Kind::Pointers, number, 0),
        301..=700 => Call::Store(first, number, second),
        701..=850 => Call::Hold(RootPlace::Display, first),
        851..=950 => Call::Hold(RootPlace::Timer, first),
        _ => Call::Exchange(first, second),
    }
}

/// The sum of what stands in the fields of an object, each with its place.
fn mixed<M: Memory>(m: &M, o: Oop) -> u32 {
    if !m.live(o) || !m.kind(o).is_pointers() {
        return 0;
    }
    let mut sum = u32::from(m.class_of(o).0);
    for at in 0..m.size(o) {
        sum = sum
            .wrapping_mul(31)
            .wrapping_add(u32::from(m.pointer(o, at).0));
    }
    sum
}

/// Whether both have the same objects under the same pointers, with the same fields.
fn are_same<M: Memory, N: Memory>(m: &M, n: &N) -> bool {
    for k in 0..32768usize {
        let o = Oop((2 * k) as u16);
        if m.live(o) != n.live(o) || mixed(m, o) != mixed(n, o) {
            return false;
        }
    }
    m.used() == n.used()
}

/// Makes a thousand calls of both, which answer the same.
fn do_thousand<M: Memory, N: Memory>(m: &mut M, n: &mut N, numbers: &mut Numbers) -> bool {
    for _ in 0..1000 {
        let call = call(numbers);
        if does(m, &call) != does(n, &call) {
            return false;
        }
    }
    true
}

/// Makes thousands of calls of both, after each of which they are the same.
fn check_thousands<M: Memory, N: Memory>(rt: &impl Abort, m: &mut M, n: &mut N) {
    let mut numbers = Numbers { state: 1 };
    for _ in 0..THOUSANDS {
        assert!(rt; do_thousand(m, n, &mut numbers) && are_same(m, n));
    }
}

/// Two memories of the same image.
fn check_both<L: Loader, K: Loader>(rt: &(impl Abort + AllocGlobal)) {
    let mut m = memory_of::<L>(rt.alloc(), Image::B, 32767, 20000).expect(rt, "an image");
    let mut n = memory_of::<K>(rt.alloc(), Image::B, 32767, 20000).expect(rt, "an image");
    check_thousands(rt, &mut m, &mut n);
}

#[test]
fn both_do_the_same(rt: HostRuntime) {
    check_both::<CountedLoader, PlainLoader>(&rt);
}
