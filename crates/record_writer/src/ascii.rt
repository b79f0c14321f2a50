// Names and dates as texts. All their bytes are ASCII.
ghost use Rattle.std.specs.Prelude.{◌≡◌, IsAscii};

use cpe_rows::Date;

/// The bytes as a text.
pub(crate) fn ascii_str(bytes: &[u8]) -> &str
    requires { IsAscii bytes.now }
    ensures { result.now ≡ bytes.now }
{
    match std::str::from_utf8(bytes) {
        Ok(text) => text,
        Err(_) => unreachable!(),
    }
}

/// The written form of a date.
pub(crate) fn date_str(date: &Date) -> &str
    ensures { result.now ≡ date.now }
{
    ascii_str(date.bytes())
}
