// The line of a certificate.
ghost use Rattle.std.specs.Prelude.{◌≡◌, true, IfOk, OnOk, Ok, Some};
ghost use Rattle.certificate_records.specs.Reading.{certificate_read_of};
ghost use Rattle.certificate_records.specs.Whole.{is_formed};
ghost use Rattle.certificate_records.specs.Written.{certificate_text};

use crate::formed::formed;
use crate::law::written_is_read;
use crate::put::put_certificate_members;
use certificate_check::Certificate;
use cpe_rows::Memory;
use json::Writer;
use std::alloc::Global;

/// A certificate as a line, without a newline. It is JSON without spaces; the members of each object are sorted by
/// their keys, and names are formatted strings.
///
/// # Errors
/// Only that memory ran out.
#[tactic(auto, unfolding(crate::specs::Written::certificate_text))]
pub fn write_certificate(alloc: Global, certificate: &Certificate) -> Result<Vec<u8>, Memory>
    ensures text { IfOk result (λ s. s.items ≡ certificate_text certificate.now) }
    // The written form of a certificate is read as the same certificate, if it has the form of a line.
    ensures read { OnOk result (is_formed certificate.now ≡ true → certificate_read_of (certificate_text certificate.now) ≡ Ok (Some certificate.now)) }
{
    formed(&certificate.why);
    written_is_read();
    let mut writer = Writer::new(Vec::with_capacity(alloc, 256)?);
    put_certificate_members(alloc, &mut writer, certificate)?;
    Ok(writer.into_inner())
}
