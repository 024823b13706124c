//! The bytes of a method's text, by what they begin or belong to.

ghost use Rattle.std.specs.Prelude.{◌≡◌};
ghost use Rattle.st_scan.specs.Bytes.{is_blank, is_radix_digit, is_operator_byte, begins_operator, is_second_operator_byte, is_mark};

pub fn is_blank(b: u8) -> bool
    ensures { result ≡ is_blank b }
{
    matches!(b, b'\t' | b'\n' | b'\x0c' | b'\r' | b' ')
}

pub fn is_radix_digit(b: u8) -> bool
    ensures { result ≡ is_radix_digit b }
{
    b.is_ascii_digit() || b.is_ascii_uppercase()
}

pub fn is_operator_byte(b: u8) -> bool
    ensures { result ≡ is_operator_byte b }
{
    matches!(
        b,
        b'+' | b'-'
            | b'/'
            | b'\\'
            | b'*'
            | b'~'
            | b'<'
            | b'>'
            | b'='
            | b'@'
            | b'%'
            | b'&'
            | b'?'
            | b','
    )
}

pub fn begins_operator(b: u8) -> bool
    ensures { result ≡ begins_operator b }
{
    b == b'|' || is_operator_byte(b)
}

pub fn is_second_operator_byte(b: u8) -> bool
    ensures { result ≡ is_second_operator_byte b }
{
    is_operator_byte(b) && b != b'-'
}

pub fn is_mark(b: u8) -> bool
    ensures { result ≡ is_mark b }
{
    matches!(
        b,
        b'^' | b'.' | b';' | b':' | b'_' | b'(' | b')' | b'[' | b']'
    )
}
