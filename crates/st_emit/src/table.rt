//! Tables of texts, each with a value.

ghost use Rattle.std.specs.Prelude.{◌≡◌};
ghost use Rattle.st_emit.specs.inside.Tables.{table_now, value_or};

/// The value of the first row with this text, or `otherwise` if there is none.
pub fn value_or<T: Copy>(table: &[(&[u8], T)], text: &[u8], otherwise: T) -> T
    ensures { result ≡ value_or (table_now table.now) text.now otherwise }
{
    for (name, value) in table {
        if text == *name {
            return *value;
        }
    }
    otherwise
}
