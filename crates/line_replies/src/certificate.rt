// Certificates, and the results of their tests, as lines.
ghost use Rattle.std.specs.Prelude.{◌≡◌, ◌++◌, OnOk, codes};
ghost use Rattle.certificate_records.specs.Written.{certificate_text};
ghost use Rattle.line_replies.specs.CertificateReplies.{checked_word, checked_line};

use certificate_records::write_certificate;
use certificate_search::{Certificate, Checked};
use line_session::Page;
use std::alloc::{AllocError, Global};

/// Appends the line of a certificate to the page.
///
/// # Errors
/// Only if memory runs out. The page may end with a part of the line then.
pub fn push_certificate(
    alloc: Global,
    page: &mut Page,
    certificate: &Certificate,
) -> Result<(), AllocError>
    ensures { OnOk result (page.new ≡ page.old ++ (certificate_text certificate.now ++ codes "\n")) }
{
    let Ok(text) = write_certificate(alloc, certificate) else {
        return Err(AllocError);
    };
    page.push(&text)?;
    page.push(b"\n")
}

fn checked_word(checked: Checked) -> &'static [u8]
    ensures { result.now ≡ checked_word checked }
{
    match checked {
        Checked::Holds => b"holds",
        Checked::Fails => b"fails",
        Checked::Absent => b"absent",
    }
}

/// Appends the line of a certificate's result to the page: the id, and the result of the test.
///
/// # Errors
/// Only if memory runs out. The page may end with a part of the line then.
pub fn push_checked(page: &mut Page, id: &str, checked: Checked) -> Result<(), AllocError>
    ensures { OnOk result (page.new ≡ page.old ++ checked_line id.now checked) }
{
    page.push(b"proof ")?;
    page.push(id.as_bytes())?;
    page.push(b" ")?;
    page.push(checked_word(checked))?;
    page.push(b"\n")
}
