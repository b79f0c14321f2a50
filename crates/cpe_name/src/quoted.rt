// Scanners of the text of a value in a well-formed name (NIST IR 7695, 5.3). Nothing here allocates memory.
//
// Each scanner takes a prefix of the bytes, and returns the bytes after this prefix. If no value can continue at some
// byte, it returns the number of bytes from there on.
ghost use Rattle.name_grammar.specs.Scanners.{IsScan};
ghost use Rattle.cpe_name.specs.Scanning.{quoted_end, value_end};

use cpe_values::{Style, scan_edge, scan_stem};
use name_grammar::{scan_byte, scan_literal};

#[tactic(auto, unfolding(crate::specs::Scanning::quoted_end))]
fn scan_in_quotes(bytes: &[u8]) -> Result<&[u8], usize>
    ensures { IsScan (λ rest. rest.now) result (quoted_end bytes.now) }
{
    let rest = scan_byte(b'"', bytes)?;
    let rest = scan_edge(rest)?;
    let rest = scan_stem(Style::Wfn, rest)?;
    scan_byte(b'"', rest)
}

// Takes `ANY`, `NA`, or a text between double quotes.
#[tactic(auto, unfolding(crate::specs::Scanning::value_end))]
pub(crate) fn scan_value(bytes: &[u8]) -> Result<&[u8], usize>
    ensures { IsScan (λ rest. rest.now) result (value_end bytes.now) }
{
    match bytes {
        [b'A', ..] => scan_literal(b"ANY", bytes),
        [b'N', ..] => scan_literal(b"NA", bytes),
        _ => scan_in_quotes(bytes),
    }
}
