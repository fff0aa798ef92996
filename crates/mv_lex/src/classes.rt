//! Classes of bytes.

ghost use Rattle.std.specs.Prelude.{◌≡◌};
ghost use Rattle.mv_lex.specs.Bytes as class;
ghost use Rattle.mv_values.specs.Printable as printable;

/// Whether the byte is a tab, LF, CR or space.
pub(crate) fn is_blank(byte: u8) -> bool
    ensures { result ≡ class.is_blank byte }
{
    byte == b'\t' || byte == b'\n' || byte == b'\r' || byte == b' '
}

/// Whether a text may contain the byte.
pub(crate) fn is_printable(byte: u8) -> bool
    ensures { result ≡ printable.is_printable byte }
{
    b' ' <= byte && byte <= b'~'
}

/// Whether a script may contain the byte.
pub(crate) fn is_allowed(byte: u8) -> bool
    ensures { result ≡ class.is_allowed byte }
{
    is_printable(byte) || is_blank(byte)
}

/// Whether the byte is a decimal digit.
pub(crate) fn is_digit(byte: u8) -> bool
    ensures { result ≡ class.is_digit byte }
{
    b'0' <= byte && byte <= b'9'
}

/// Whether the byte is a letter or `_`.
pub(crate) fn begins_word(byte: u8) -> bool
    ensures { result ≡ class.begins_word byte }
{
    (b'A' <= byte && byte <= b'Z') || (b'a' <= byte && byte <= b'z') || byte == b'_'
}

/// Whether the byte is a letter, `_` or a digit.
pub(crate) fn continues_word(byte: u8) -> bool
    ensures { result ≡ class.continues_word byte }
{
    begins_word(byte) || is_digit(byte)
}

/// Whether the byte is one of `( ) , ; . = < > + - * / %`.
pub(crate) fn is_short_symbol(byte: u8) -> bool
    ensures { result ≡ class.is_short_symbol byte }
{
    (b'(' <= byte && byte <= b'/') || (b';' <= byte && byte <= b'>') || byte == b'%'
}

/// Whether the bytes are one of `<> <= >=` or two bars.
pub(crate) fn is_long_symbol(first: u8, second: u8) -> bool
    ensures { result ≡ class.is_long_symbol first second }
{
    match first {
        b'<' => second == b'>' || second == b'=',
        b'>' => second == b'=',
        b'|' => second == b'|',
        _ => false,
    }
}
