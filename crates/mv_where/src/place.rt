//! Lines and columns.

ghost use Rattle.std.specs.Prelude.{◌≡◌, ◌≤◌, length, count_by};
ghost use Rattle.std.specs.List.{prefix_len};
ghost use Rattle.mv_lex.specs.Bytes.{is_in_line};
ghost use Rattle.mv_where.specs.Places.{is_break, line_number, column, first_line, line_around};

fn breaks(bytes: &[u8]) -> usize
    ensures value { result ≡ count_by is_break bytes.now }
    ensures within { result ≤ length bytes.now }
{
    bytes.iter().filter(|byte| **byte == b'\n').count()
}

/// Returns the number of the line of a byte, from 1: one more than the LFs before it.
pub fn line_number(bytes: &[u8], at: usize) -> usize
    requires { at ≤ length bytes.now }
    ensures { result ≡ line_number bytes.now at }
{
    1 + breaks(&bytes[..at])
}

/// Returns how many bytes of its line come before a byte.
pub fn column(bytes: &[u8], at: usize) -> usize
    requires { at ≤ length bytes.now }
    ensures value { result ≡ column bytes.now at }
    ensures within { result ≤ at }
{
    bytes[..at]
        .iter()
        .rev()
        .take_while(|byte| **byte != b'\n')
        .count()
}

fn line_len(bytes: &[u8]) -> usize
    ensures value { result ≡ prefix_len is_in_line bytes.now }
    ensures within { result ≤ length bytes.now }
{
    bytes.iter().take_while(|byte| **byte != b'\n').count()
}

/// Returns the first line, without its LF.
pub fn first_line(bytes: &[u8]) -> &[u8]
    ensures { result.now ≡ first_line bytes.now }
{
    &bytes[..line_len(bytes)]
}

/// Returns the line of a byte, without its LF.
pub fn line_around(bytes: &[u8], at: usize) -> &[u8]
    requires { at ≤ length bytes.now }
    ensures { result.now ≡ line_around bytes.now at }
{
    let begin = at - column(bytes, at);
    first_line(&bytes[begin..])
}
