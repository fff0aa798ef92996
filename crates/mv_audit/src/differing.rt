//! Compares texts.

ghost use Rattle.std.specs.Prelude.{◌≡◌, ◌<◌, ◌≤◌, ◌+◌, ◌^◌, length};
ghost use Rattle.mv_audit.specs.Verdicts.{difference};

/// Returns the number of the first line in which two texts differ, if they do. Where one of them ends, it differs from
/// the other if that one goes on.
pub(crate) fn difference(report: &[u8], text: &[u8]) -> Option<u32>
    requires { length report.now < 2 ^ 31 }
    ensures { result ≡ difference 1 report.now text.now }
{
    let mut n = 1;
    for i in 0..report.len() {
        if i >= text.len() {
            return Some(n);
        }
        if report[i] != text[i] {
            return Some(n);
        }
        if report[i] == b'\n' {
            n += 1;
        }
    }
    if report.len() < text.len() {
        Some(n)
    } else {
        None
    }
}
