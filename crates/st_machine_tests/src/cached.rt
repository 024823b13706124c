//! A memory that remembers what searches found: what it forgets, as tables, and the plain memory beside it.

use crate::calls::{find_and_remember, remembered};
use crate::image::{Image, memory_of};
use crate::rows::{Call, Row, check_calls, does};
use crate::side_by_side::Numbers;
use st_lookup::{CachedLoader, find};
use st_memory::{Loader, Memory};
use st_model::{Dead, Kind, Oop, RootPlace};
use st_plain::PlainLoader;
use std::alloc::AllocGlobal;
use std::process::Abort;

/// In image C class 12 has the method 72 for the selector 66: its dictionary 68 has the selector in field 2, and the Array 70
/// the method in field 0.
const FOUND: Call = Call::Find(12, 66, Ok(Some(Oop(72))));

const IS_REMEMBERED: Call = Call::Remembered(12, 66, Some(Oop(72)));

const IS_FORGOTTEN: Call = Call::Remembered(12, 66, None);

/// What is remembered, and what is forgotten with something else; and what the search finds then.
pub const ROWS: &[Row] = &[
    // its place in the dictionary is emptied, or its method is another, or the class has another dictionary
    (
        Image::C,
        32767,
        20000,
        &[
            FOUND,
            Call::Store(68, 2, 2),
            IS_FORGOTTEN,
            Call::Find(12, 66, Ok(None)),
            IS_FORGOTTEN,
        ],
    ),
    (
        Image::C,
        32767,
        20000,
        &[
            FOUND,
            Call::Store(70, 0, 64),
            IS_FORGOTTEN,
            Call::Find(12, 66, Ok(Some(Oop(64)))),
            Call::Remembered(12, 66, Some(Oop(64))),
        ],
    ),
    (
        Image::C,
        32767,
        20000,
        &[
            FOUND,
            Call::Store(12, 1, 50),
            IS_FORGOTTEN,
            Call::Find(12, 66, Err(Dead::Places)),
            IS_FORGOTTEN,
        ],
    ),
    // the dictionary, the Array, the class or the method is exchanged, on either side
    (
        Image::C,
        32767,
        20000,
        &[
            FOUND,
            Call::Exchange(68, 50),
            IS_FORGOTTEN,
            Call::Find(12, 66, Err(Dead::Places)),
            IS_FORGOTTEN,
        ],
    ),
    (
        Image::C,
        32767,
        20000,
        &[
            FOUND,
            Call::Exchange(50, 68),
            IS_FORGOTTEN,
            Call::Find(12, 66, Err(Dead::Places)),
            IS_FORGOTTEN,
        ],
    ),
    (
        Image::C,
        32767,
        20000,
        &[
            FOUND,
            Call::Exchange(50, 70),
            IS_FORGOTTEN,
            Call::Find(12, 66, Err(Dead::Field)),
            IS_FORGOTTEN,
        ],
    ),
    (
        Image::C,
        32767,
        20000,
        &[
            FOUND,
            Call::Exchange(12, 50),
            IS_FORGOTTEN,
            Call::Find(12, 66, Err(Dead::Field)),
            IS_FORGOTTEN,
        ],
    ),
    (
        Image::C,
        32767,
        20000,
        &[
            FOUND,
            Call::Exchange(72, 50),
            IS_FORGOTTEN,
            Call::Find(12, 66, Err(Dead::Kind)),
            IS_FORGOTTEN,
        ],
    ),
    (
        Image::C,
        32767,
        20000,
        &[IS_FORGOTTEN, FOUND, IS_REMEMBERED, FOUND],
    ),
    // what a class had is found in the one that it was exchanged with
    (
        Image::C,
        32767,
        20000,
        &[
            FOUND,
            Call::Exchange(12, 50),
            Call::Find(50, 66, Ok(Some(Oop(72)))),
            Call::Remembered(50, 66, Some(Oop(72))),
        ],
    ),
    // a class below it has its method, which is forgotten with it
    (
        Image::C,
        32767,
        20000,
        &[
            Call::Make(1, 16, Kind::Pointers, 3, 10),
            Call::Make(1, 16, Kind::Pointers, 3, 18),
            Call::Store(10, 0, 12),
            Call::Store(10, 1, 18),
            Call::Find(10, 66, Ok(Some(Oop(72)))),
            Call::Remembered(10, 66, Some(Oop(72))),
            Call::Store(18, 1, 70),
            Call::Remembered(10, 66, None),
            FOUND,
            Call::Store(18, 2, 66),
            IS_REMEMBERED,
        ],
    ),
    // the pointers of a class and a dictionary that were dropped are borne by others
    (
        Image::C,
        32767,
        20000,
        &[
            Call::Make(1, 16, Kind::Pointers, 3, 10),
            Call::Hold(RootPlace::Display, 10),
            Call::Store(10, 1, 68),
            Call::Find(10, 66, Ok(Some(Oop(72)))),
            Call::Hold(RootPlace::Display, 2),
            Call::Settle,
            Call::Make(1, 16, Kind::Pointers, 3, 10),
            Call::Remembered(10, 66, None),
            Call::Find(10, 66, Err(Dead::Places)),
        ],
    ),
    // a SmallInteger is a selector as well; and what isn't met stays as it may
    (
        Image::C,
        32767,
        20000,
        &[
            Call::Store(68, 2, 3),
            Call::Find(12, 3, Ok(Some(Oop(72)))),
            Call::Make(1, 16, Kind::Pointers, 3, 10),
            Call::Store(10, 0, 12),
            Call::Exchange(10, 50),
            Call::Settle,
            Call::Remembered(12, 3, Some(Oop(72))),
        ],
    ),
];

/// Classes, dictionaries, Arrays of methods, selectors and methods, of image C and of what is made beside it.
const SOME: &[u16] = &[
    2, 3, 10, 12, 18, 20, 30, 36, 42, 64, 66, 68, 70, 72, 50, 131,
];

/// Two classes below class 12: class 10 with the dictionary 18, class 30 below it with the dictionary 36, and both with the
/// Array 20, which has the methods of image C.
const CLASSES: &[Call] = &[
    Call::Make(1, 16, Kind::Pointers, 3, 10),
    Call::Make(1, 16, Kind::Pointers, 6, 18),
    Call::Make(1, 16, Kind::Pointers, 4, 20),
    Call::Make(1, 16, Kind::Pointers, 3, 30),
    Call::Make(1, 16, Kind::Pointers, 4, 36),
    Call::Store(10, 0, 12),
    Call::Store(10, 1, 18),
    Call::Store(18, 1, 20),
    Call::Store(18, 2, 42),
    Call::Store(18, 3, 66),
    Call::Store(18, 4, 3),
    Call::Store(20, 0, 64),
    Call::Store(20, 1, 72),
    Call::Store(20, 2, 72),
    Call::Store(20, 3, 64),
    Call::Store(30, 0, 10),
    Call::Store(30, 1, 36),
    Call::Store(36, 1, 20),
    Call::Store(36, 2, 131),
    Call::Hold(RootPlace::Display, 30),
];

fn pick(numbers: &mut Numbers) -> u16 {
    let chosen = numbers.next() as usize % 16;
    SOME.get(chosen).copied().unwrap_or(2)
}

/// One change of some objects.
fn change(numbers: &mut Numbers) -> Call {
    let choice = numbers.next() % 16;
    let first = pick(numbers);
    let second = pick(numbers);
    let at = numbers.next() % 6;
    match choice {
        0 => Call::Settle,
        1 => Call::Make(1, 16, Kind::Pointers, at, 0),
        2 | 3 => Call::Exchange(first, second),
        4 => Call::Hold(RootPlace::Display, first),
        _ => Call::Store(first, at, second),
    }
}

/// Whether the superclasses of a class come to an end soon, and not back to one of them.
fn chain_ends<M: Memory>(m: &M, class: Oop) -> bool {
    let mut class = class;
    for _ in 0..16 {
        if !m.live(class) || !m.kind(class).is_pointers() || m.size(class) == 0 {
            return true;
        }
        class = m.pointer(class, 0);
    }
    false
}

/// Each selector is searched in a class over both, and what is found is remembered. A search that would go round among
/// superclasses, for a long time, is left out.
fn find_each<M: Memory, N: Memory>(m: &mut M, n: &N, class: Oop) -> bool {
    let ends = chain_ends(n, class);
    for selector in SOME {
        let selector = Oop(*selector);
        let is_soon = ends || remembered(m, class, selector).is_some();
        if is_soon && find_and_remember(m, class, selector) != find(n, class, selector) {
            return false;
        }
    }
    true
}

fn find_all<M: Memory, N: Memory>(m: &mut M, n: &N) -> bool {
    for class in SOME {
        if !find_each(m, n, Oop(*class)) {
            return false;
        }
    }
    true
}

/// Makes some changes of both memories, after each of which both find the same.
fn check_changes<M: Memory, N: Memory>(rt: &impl Abort, m: &mut M, n: &mut N, state: u32) {
    let mut numbers = Numbers { state };
    for _ in 0..100 {
        let call = change(&mut numbers);
        assert!(rt; does(m, &call) == does(n, &call) && find_all(m, n));
    }
}

/// A memory that remembers, and one that doesn't, of the same image.
fn check_searches<L: Loader, K: Loader>(rt: &(impl Abort + AllocGlobal), state: u32) {
    let mut m = memory_of::<L>(rt.alloc(), Image::C, 32767, 20000).expect(rt, "an image");
    let mut n = memory_of::<K>(rt.alloc(), Image::C, 32767, 20000).expect(rt, "an image");
    check_calls(rt, &mut m, CLASSES);
    check_calls(rt, &mut n, CLASSES);
    check_changes(rt, &mut m, &mut n, state);
}

fn check_states<L: Loader, K: Loader>(rt: &(impl Abort + AllocGlobal)) {
    for state in 1..50 {
        check_searches::<L, K>(rt, state);
    }
}

#[test]
fn searches_find_what_they_find_beside_a_plain_memory(rt: HostRuntime) {
    check_states::<CachedLoader<PlainLoader>, PlainLoader>(&rt);
}
