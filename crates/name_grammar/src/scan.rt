// Scanners of given bytes. Nothing here allocates.
ghost use Rattle.std.specs.Prelude.{◌≡◌, ◌≤◌, ◌==◌, ◌-◌, length, take, Ok, Err};
ghost use Rattle.name_grammar.specs.Scanners.{IsScan, scan_one, literal};

/// Reads the expected byte, and returns the bytes after it. If another byte or none is there, the error is the number
/// of bytes left.
#[inline(always)]
pub fn scan_byte(expected: u8, bytes: &[u8]) -> Result<&[u8], usize>
    ensures { IsScan (λ rest. rest.now) result (scan_one (λ d. d == expected) bytes.now) }
{
    match bytes {
        [byte, rest @ ..] if *byte == expected => Ok(rest),
        _ => Err(bytes.len()),
    }
}

/// Reads the expected bytes, and returns the bytes after them. The error is the number of bytes from the first
/// unexpected byte on.
#[inline(always)]
#[tactic(auto, unfolding(crate::specs::Scanners::literal))]
pub fn scan_literal<'a>(expected: &[u8], bytes: &'a [u8]) -> Result<&'a [u8], usize>
    ensures { IsScan (λ rest. rest.now) result (literal expected.now bytes.now) }
{
    let mut rest = bytes;
    for byte in expected {
        rest = scan_byte(*byte, rest)?;
    }
    Ok(rest)
}

/// All bytes except the last.
#[inline(always)]
pub fn but_last(bytes: &[u8]) -> &[u8]
    ensures prefix { result.now ≡ take (length bytes.now - 1) bytes.now }
    ensures within { length result.now ≤ length bytes.now }
{
    &bytes[..bytes.len().saturating_sub(1)]
}

/// The bytes of a slice before `rest`, which is the end of this slice.
#[inline(always)]
pub fn prefix_of<'a>(all: &'a [u8], rest: &[u8]) -> &'a [u8]
    ensures { result.now ≡ take (length all.now - length rest.now) all.now }
{
    &all[..all.len().saturating_sub(rest.len())]
}
