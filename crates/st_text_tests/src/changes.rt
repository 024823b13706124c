//! The changes of a store over a host in memory: that calls succeed.

ghost use Rattle.std.specs.Prelude.{◌≡◌, IfOk, nat_lt, length};
ghost use Rattle.st_chunk.specs.Definitions.{IsDefinition, entries};
ghost use Rattle.st_changes.specs.inside.Views.{definition_of};

use crate::hosts::{check_file, host_with};
use st_changes::{Changes, Definition, Span, load};
use st_host::Host;
use st_scan::Text;
use st_store::{Store, StoreFault, open_store};
use std::alloc::{AllocError, Global};
use std::process::Abort;

// Three definitions: `x ^x` of Point's instances, `y ^'!'` of its class side, whose category is `it's!`, and `x ^'!'` of
// its instances, in the category `it's!`. The entries begin at 0, 32 and 79.
const THREE: [u8; 120] = *b"!Point methodsFor: 'a'!\nx ^x! !\n\
!Point class methodsFor: 'it''s!!'!\ny ^'!!'! !\n\
!Point methodsFor: 'it''s!!'!\nx ^'!!'! !\n";

// The roots file of an image without bytes, and of changes whose base is 32 and whose length is 79.
const ROOTS: [u8; 80] = *b"ST80ROOT\0\0\0\0\0\0\0\0\
\0\0\0\0\0\0\0\0\0\0\0\0\0\0\0\0\0\0\0\0\0\0\0\x20\0\0\0\0\0\0\0\x4f\
\0\0\0\0\0\0\0\0\0\0\0\0\0\0\0\0\0\0\0\0\0\0\0\0\0\0\0\0\0\0\0\0";

/// The store of a host's files, and the list of its changes.
fn opened<H: Host>(alloc: Global, host: &mut H) -> Result<(Store, Changes), StoreFault>
    ensures place { IfOk result (λ r. r.0.root.length ≡ length (entries r.1.listed)) }
    ensures file { IfOk result (λ r. r.1.second ≡ nat_lt 1 r.0.root.slot) }
{
    let store = open_store(alloc, host, "s")?;
    let changes = load(alloc, host, &store)?;
    Ok((store, changes))
}

fn copied(alloc: Global, bytes: &[u8]) -> Result<Text, AllocError>
    ensures { IfOk result (λ text. text.items ≡ bytes.now) }
{
    let mut text = Text::new(alloc);
    text.extend_from_slice(bytes)?;
    Ok(text)
}

/// The third definition.
fn definition(alloc: Global) -> Result<Definition, AllocError>
    ensures { IfOk result (λ d. IsDefinition (definition_of d)) }
{
    let class = copied(alloc, b"Point")?;
    let category = copied(alloc, b"it's!")?;
    let text = copied(alloc, b"x ^'!'")?;
    Ok(Definition {
        class,
        meta: false,
        category,
        text,
    })
}

/// Keeps that definition in a store and its list, and answers both.
fn keep<H: Host>(
    rt: &impl Abort,
    alloc: Global,
    host: &mut H,
    store: Store,
    changes: Changes,
) -> Result<(Store, Changes), StoreFault>
    requires place { store.root.length ≡ length (entries changes.listed) }
    requires file { changes.second ≡ nat_lt 1 store.root.slot }
{
    let mut changes = changes;
    let definition = definition(alloc)?;
    assert!(rt; changes.fits(&definition));
    changes.reserve(alloc, &definition)?;
    let store = changes.append(host, store, definition)?;
    Ok((store, changes))
}

/// Whether the last text of `x` of Point's instances stands here, and those of others stand where `THREE` has them.
fn has_lasts(changes: &Changes, x: Span) -> bool {
    let y = Span { at: 68, length: 7 };
    changes.last(b"Point", false, b"x") == Some(x)
        && changes.last(b"Point", true, b"y") == Some(y)
        && changes.last(b"Point", true, b"x").is_none()
        && changes.last(b"x", false, b"Point").is_none()
}

/// Opens a store, keeps the definition, and loads the changes again.
fn kept<H: Host>(rt: &impl Abort, alloc: Global, host: &mut H) -> Result<Changes, StoreFault> {
    let (store, changes) = opened(alloc, host)?;
    assert!(rt; has_lasts(&changes, Span { at: 24, length: 4 }));
    let (store, changes) = keep(rt, alloc, host, store, changes)?;
    assert!(rt; has_lasts(&changes, Span { at: 109, length: 7 }));
    load(alloc, host, &store)
}

#[test]
fn a_definition_is_kept_and_read_back(rt: HostRuntime) {
    let alloc = rt.alloc();
    let mut host = host_with(alloc, &ROOTS, &THREE[..79]).expect(&rt, "memory");
    let changes = kept(&rt, alloc, &mut host).expect(&rt, "a store");
    let has_lasts = has_lasts(&changes, Span { at: 109, length: 7 });
    assert!(rt; has_lasts && changes.definitions().len() == 3);
    check_file(&rt, alloc, &mut host, "s.changes", &THREE);
}
