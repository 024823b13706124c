// The names of a store's files, which are made when it is opened or begun.
ghost use Rattle.std.specs.Prelude.{◌≡◌, ◌++◌, IfOk, string_bytes};
ghost use Rattle.st_store.specs.Names.{roots_file, changes_file, image_file};

use std::alloc::{AllocError, Global};

#[derive(Drop)]
pub(crate) struct FileNames {
    name: String,
    roots: String,
    image_a: String,
    image_b: String,
    changes: String,
    changes_2: String,
    pub ghost roots_is: { string_bytes roots ≡ roots_file (string_bytes name) },
    pub ghost image_a_is: { string_bytes image_a ≡ image_file (string_bytes name) 0 },
    pub ghost image_b_is: { string_bytes image_b ≡ image_file (string_bytes name) 1 },
    pub ghost changes_is: { string_bytes changes ≡ changes_file (string_bytes name) 0 },
    pub ghost changes_2_is: { string_bytes changes_2 ≡ changes_file (string_bytes name) 2 },
}

impl FileNames {
    pub(crate) fn new(alloc: Global, name: &str) -> Result<FileNames, AllocError>
        ensures { IfOk result (λ names. string_bytes names.name ≡ name.now) }
    {
        Ok(FileNames {
            name: joined(alloc, name, "")?,
            roots: joined(alloc, name, ".roots")?,
            image_a: joined(alloc, name, ".a")?,
            image_b: joined(alloc, name, ".b")?,
            changes: joined(alloc, name, ".changes")?,
            changes_2: joined(alloc, name, ".changes2")?,
        })
    }

    pub(crate) fn name(&self) -> &str
        ensures { result.now ≡ string_bytes self.now.name }
    {
        self.name.as_str()
    }

    pub(crate) fn roots(&self) -> &str
        ensures { result.now ≡ roots_file (string_bytes self.now.name) }
    {
        self.roots.as_str()
    }

    pub(crate) fn changes(&self, slot: u64) -> &str
        ensures { result.now ≡ changes_file (string_bytes self.now.name) slot }
    {
        match slot {
            0 | 1 => self.changes.as_str(),
            _ => self.changes_2.as_str(),
        }
    }

    pub(crate) fn image(&self, slot: u64) -> &str
        ensures { result.now ≡ image_file (string_bytes self.now.name) slot }
    {
        if slot % 2 == 0 {
            self.image_a.as_str()
        } else {
            self.image_b.as_str()
        }
    }
}

fn joined(alloc: Global, name: &str, end: &str) -> Result<String, AllocError>
    ensures { IfOk result (λ s. string_bytes s ≡ name.now ++ end.now) }
{
    let mut s = String::new(alloc);
    s.push_str(name)?;
    s.push_str(end)?;
    Ok(s)
}
