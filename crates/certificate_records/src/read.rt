// The certificate of a line.
ghost use Rattle.std.specs.Prelude.{◌≡◌};
ghost use Rattle.serde_json.specs.View.{view};
ghost use Rattle.certificate_records.specs.Gives.{ReadsCertificate};
ghost use Rattle.certificate_records.specs.Reading.{certificate_id_at, certificate_in, is_certificate, certificate_read_of};

use crate::CertificateFault;
use crate::why::why_at;
use certificate_check::Certificate;
use cpe_records::{text_in, value_of};
use cpe_rows::{Text, is_id};
use serde_json::Value;
use std::alloc::Global;

fn id_at(alloc: Global, json: &Value) -> Result<Text, CertificateFault>
    ensures { ReadsCertificate result (certificate_id_at (view json.now)) }
{
    match text_in(json, "id") {
        Some(text) => {
            if is_id(text) {
                Ok(Text::new(alloc, text)?)
            } else {
                Err(CertificateFault::Id)
            }
        }
        None => Err(CertificateFault::Id),
    }
}

#[tactic(auto, unfolding(crate::specs::Reading::certificate_in))]
fn certificate_in(alloc: Global, json: &Value) -> Result<Certificate, CertificateFault>
    ensures { ReadsCertificate result (certificate_in (view json.now)) }
{
    let id = id_at(alloc, json)?;
    let why = why_at(alloc, json)?;
    Ok(Certificate { id, why })
}

fn is_certificate(json: &Value) -> bool
    ensures { result ≡ is_certificate (view json.now) }
{
    match text_in(json, "do") {
        Some(word) => word == "proof",
        None => false,
    }
}

/// The certificate of a line. The head of this crate describes its form. There is no certificate exactly if the line is
/// no JSON value, is no object, or has no member `do` that is the text `proof`. Members that the form does not name are
/// ignored. Members that the form names only for another case are ignored too. If a member is there twice, the last one
/// counts. The names of the certificate are in lower case.
///
/// # Errors
/// If the line has that member `do`: `Id`, exactly if the member `id` is no id of a statement, which has 1 to 256
/// visible characters of ASCII. Otherwise `Why`, exactly if the member `why` has not its form. Otherwise `Memory`, if
/// memory runs out.
#[tactic(auto, unfolding(crate::specs::Reading::certificate_read_of))]
pub fn read_certificate(alloc: Global, line: &[u8]) -> Result<Option<Certificate>, CertificateFault>
    ensures { ReadsCertificate result (certificate_read_of line.now) }
{
    match value_of(alloc, line)? {
        Some(value) => {
            if is_certificate(&value) {
                Ok(Some(certificate_in(alloc, &value)?))
            } else {
                Ok(None)
            }
        }
        None => Ok(None),
    }
}
