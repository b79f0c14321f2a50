// How characters and specials are spelled in a URI: bare, or as percent forms (NIST IR 7695, 6.1).
ghost use Rattle.std.specs.Prelude.{◌≡◌, ◌<◌};
ghost use Rattle.cpe_uri.specs.Spelling.{hex_digit, hex_value, percent};
ghost use Rattle.cpe_uri.specs.Requoting.{unquoted_length};

// In a text of at least this many bytes, bare bytes are found and copied many at a time.
pub(crate) const LONG_TEXT: usize = 32;

// The number of bytes that an unquoted byte has in a URI: 0 for a backslash, 1 for a bare byte, 3 for a percent form.
#[rattlefmt::skip]
const LENGTHS: [u8; 256] = [
    3, 3, 3, 3, 3, 3, 3, 3, 3, 3, 3, 3, 3, 3, 3, 3, 3, 3, 3, 3, 3, 3, 3, 3, 3, 3, 3, 3, 3, 3, 3, 3,
    3, 3, 3, 3, 3, 3, 3, 3, 3, 3, 3, 3, 3, 1, 1, 3, 1, 1, 1, 1, 1, 1, 1, 1, 1, 1, 3, 3, 3, 3, 3, 3,
    3, 1, 1, 1, 1, 1, 1, 1, 1, 1, 1, 1, 1, 1, 1, 1, 1, 1, 1, 1, 1, 1, 1, 1, 1, 1, 1, 3, 0, 3, 3, 1,
    3, 1, 1, 1, 1, 1, 1, 1, 1, 1, 1, 1, 1, 1, 1, 1, 1, 1, 1, 1, 1, 1, 1, 1, 1, 1, 1, 3, 3, 3, 3, 3,
    3, 3, 3, 3, 3, 3, 3, 3, 3, 3, 3, 3, 3, 3, 3, 3, 3, 3, 3, 3, 3, 3, 3, 3, 3, 3, 3, 3, 3, 3, 3, 3,
    3, 3, 3, 3, 3, 3, 3, 3, 3, 3, 3, 3, 3, 3, 3, 3, 3, 3, 3, 3, 3, 3, 3, 3, 3, 3, 3, 3, 3, 3, 3, 3,
    3, 3, 3, 3, 3, 3, 3, 3, 3, 3, 3, 3, 3, 3, 3, 3, 3, 3, 3, 3, 3, 3, 3, 3, 3, 3, 3, 3, 3, 3, 3, 3,
    3, 3, 3, 3, 3, 3, 3, 3, 3, 3, 3, 3, 3, 3, 3, 3, 3, 3, 3, 3, 3, 3, 3, 3, 3, 3, 3, 3, 3, 3, 3, 3,
];

const DIGITS: &[u8; 16] = b"0123456789abcdef";

pub(crate) fn unquoted_length(byte: u8) -> u8
    ensures { result ≡ unquoted_length byte }
{
    LENGTHS[usize::from(byte)]
}

#[tactic(auto, using(crate::proofs::Tables::digit_is))]
fn hex_digit(number: u8) -> u8
    requires { number < 16 }
    ensures { result ≡ hex_digit number }
{
    DIGITS[usize::from(number)]
}

pub(crate) fn percent_form(code: u8) -> [u8; 3]
    ensures { result ≡ percent code }
{
    [b'%', hex_digit(code / 16), hex_digit(code % 16)]
}

// The number that a hexadecimal digit represents. For any other byte it is some number without meaning.
pub(crate) fn hex_value(byte: u8) -> u8
    ensures { result ≡ hex_value byte }
{
    match byte {
        ..=b'9' => byte.saturating_sub(b'0'),
        ..=b'F' => byte.saturating_sub(55),
        _ => byte.saturating_sub(87),
    }
}
