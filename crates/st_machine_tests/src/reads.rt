//! What is read of objects.

use st_memory::Objects;
use st_model::{Dead, Word};

/// Whether this stands in fields, or there is nothing for such causes.
pub fn are_fields<O: Objects>(o: &O, rows: &[(Word, u32, Result<Word, Dead>)]) -> bool {
    for (object, at, found) in rows {
        if o.fetch_field(*object, *at) != *found {
            return false;
        }
    }
    true
}

/// Whether objects have so many fields.
pub fn are_counts<O: Objects>(o: &O, rows: &[(Word, Result<u32, Dead>)]) -> bool {
    for (object, count) in rows {
        if o.count_fields(*object) != *count {
            return false;
        }
    }
    true
}

/// Whether this stands in a method's bytes.
pub fn are_bytes<O: Objects>(o: &O, rows: &[(Word, i32, Result<u8, Dead>)]) -> bool {
    for (method, at, byte) in rows {
        if o.byte_at(*method, *at) != *byte {
            return false;
        }
    }
    true
}
