// A line with exactly one space, cut into its two texts.
ghost use Rattle.std.specs.Prelude.{◌≡◌, Some, None, MatchOption};
ghost use Rattle.cpe_io.specs.Halves.{halves};

use memchr::memchr;

/// The texts before and after the only space of the line. `None` if the number of spaces is not 1.
pub fn cut_in_halves(line: &[u8]) -> Option<(&[u8], &[u8])>
    ensures { MatchOption result (halves line.now ≡ None) (λ both. halves line.now ≡ Some (both.0.now, both.1.now)) }
{
    let Some(at) = memchr(b' ', line) else {
        return None;
    };
    let before = &line[..at];
    let behind = &line[at + 1..];
    match memchr(b' ', behind) {
        Some(_) => None,
        None => Some((before, behind)),
    }
}
