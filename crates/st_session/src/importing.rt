//! The command `import`.

ghost use Rattle.st_host.specs.Files.{bytes_of};
ghost use Rattle.st_protocol.specs.Statuses.{StatusHasCause};
ghost use Rattle.st_session.specs.Imports.{ImportEnds};

use crate::making::{Origin, make};
use st_call::{read_image, report_status};
use st_host::Host;
use st_image::HeadValues;
use st_memory::Loader;
use st_protocol::Status;
use std::alloc::Global;

/// The command `import`: reads an image with these values in place of those of its head, makes a store of it, and says how many
/// objects and words it has. The image is read before the store is looked for. A stop at any moment leaves what could be left
/// before, or, where there was no store, files that are none's, or that open as the new store; once `imported` was said they do
/// that.
pub fn import<H: Host, L: Loader>(
    alloc: Global,
    host: &mut H,
    image: &str,
    store: &str,
    over: &HeadValues,
) -> Status
    ensures ends { ImportEnds H.Host.own over.now (bytes_of (H.files host.old image.now)) store.now
        host.old host.new result }
    ensures cause { StatusHasCause H.Host.own ⊥ host.old host.new result }
{
    match read_image::<H, L>(alloc, host, image, over) {
        Ok(loaded) => make(alloc, host, Origin::Image, &loaded.memory, store),
        Err(refusal) => {
            let status = refusal.status();
            report_status(host, status);
            status
        }
    }
}
