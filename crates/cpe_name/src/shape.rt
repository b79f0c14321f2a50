// The shapes of the values of a part and of a language.
ghost use Rattle.std.specs.Prelude.{◌≡◌};
ghost use Rattle.cpe_values.specs.Parts.{is_nothing};
ghost use Rattle.cpe_name.specs.Shapes.{is_part, is_language, is_part_body, is_language_body, is_region};

use cpe_values::{Edge, Value, is_digit_byte, is_letter_byte};

fn is_nothing_at(edge: Edge) -> bool
    ensures { result ≡ is_nothing edge }
{
    matches!(edge, Edge::None)
}

/// Whether the part may have this value.
pub(crate) fn is_lawful_part(value: &Value) -> bool
    ensures { result ≡ is_part value.now }
{
    match value {
        Value::Text(text) => {
            is_nothing_at(text.lead()) && is_nothing_at(text.trail()) && is_part_stem(text.stem())
        }
        _ => true,
    }
}

fn is_part_stem(body: &[u8]) -> bool
    ensures { result ≡ is_part_body body.now }
{
    match body {
        [letter] => *letter == b'a' || *letter == b'h' || *letter == b'o',
        _ => false,
    }
}

/// Whether the language may have this value.
pub(crate) fn is_lawful_language(value: &Value) -> bool
    ensures { result ≡ is_language value.now }
{
    match value {
        Value::Text(text) => {
            is_nothing_at(text.lead())
                && is_nothing_at(text.trail())
                && is_language_stem(text.stem())
        }
        _ => true,
    }
}

fn is_language_stem(body: &[u8]) -> bool
    ensures { result ≡ is_language_body body.now }
{
    match body {
        [a, b] => is_letter_byte(*a) && is_letter_byte(*b),
        [a, b, c, rest @ ..] => {
            is_letter_byte(*a)
                && is_letter_byte(*b)
                && (is_region_tail(&body[2..]) || is_letter_byte(*c) && is_region_tail(rest))
        }
        _ => false,
    }
}

fn is_region_tail(tail: &[u8]) -> bool
    ensures { result ≡ is_region tail.now }
{
    match tail {
        [] => true,
        [hyphen, a, b] => *hyphen == b'-' && is_letter_byte(*a) && is_letter_byte(*b),
        [hyphen, a, b, c] => {
            *hyphen == b'-' && is_digit_byte(*a) && is_digit_byte(*b) && is_digit_byte(*c)
        }
        _ => false,
    }
}
