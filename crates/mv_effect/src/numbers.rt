//! Numbers of tables and columns in one byte.

ghost use Rattle.std.specs.Prelude.{◌≡◌, ◌<◌, ◌==◌, take};
ghost use Rattle.std.specs.List.{list_any};

/// Returns the number of a table or a column in one byte. There are no more than 256 of them.
pub(crate) fn narrow(number: u16) -> u8
    requires { number < 256 }
    ensures { result ≡ number }
{
    number as u8
}

/// Whether the number is among the first ones.
pub(crate) fn is_among_first(numbers: &[u16], first: usize, number: u16) -> bool
    ensures { result ≡ list_any (λ n. n == number) (take first numbers.now) }
{
    numbers.iter().take(first).any(|n| *n == number)
}
