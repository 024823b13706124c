// Tables of words, each with a value.
ghost use Rattle.std.specs.{Prelude.{◌≡◌}, Map.lookup};
ghost use Rattle.st_kernel_text.specs.{Words.is_word, inside.Tables.table_now};

/// The value of the first row with this word, if there is one.
pub(crate) fn value_named<T: Copy>(table: &[(&[u8], T)], word: &[u8]) -> Option<T>
    ensures { result ≡ lookup (is_word word.now) (table_now table.now) }
{
    for (name, value) in table {
        if word == *name {
            return Some(*value);
        }
    }
    None
}
