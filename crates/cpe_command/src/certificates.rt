// Certificates of verdicts, and the results of their tests.
ghost use Rattle.std.specs.Prelude.{◌≡◌, ◌++◌, [], IfOk, OnOk, length, slice_get, None, codes};
ghost use Rattle.std.specs.Option.{option_map_or};
ghost use Rattle.line_session.specs.Prelude.{AppendsPrefix, HasSinkCause, Pours};
ghost use Rattle.certificate_records.specs.Written.{certificate_text};
ghost use Rattle.line_replies.specs.CertificateReplies.{certificate_line, certificate_lines, checked_line};
ghost use Rattle.cpe_command.specs.Checking.{checked};

use certificate_check::{Certificate, Checked, PlainRows, check_certificate};
use certificate_search::explain;
use cpe_rows::Memory;
use engine_snapshot::Engine;
use line_replies::{RecordReason, push_certificate, push_checked};
use line_session::{Page, Sink, SinkFault, Table, pour_table};
use std::alloc::{AllocError, Global};

// The lines of the certificates, one for each statement.
#[derive(Clone, Copy)]
struct Certificates<'e> {
    engine: &'e Engine,
}

impl Table for Certificates<'_> {
    ghost count = { λ lines. length lines.engine.now.statements };

    ghost text = { λ lines k. option_map_or (certificate_line lines.engine.now) (slice_get lines.engine.now.statements k) [] };

    fn len(&self) -> usize {
        let engine = self.engine;
        engine.statements_len()
    }

    fn put(&self, alloc: Global, k: usize, page: &mut Page) -> Result<(), AllocError> {
        let engine = self.engine;
        match explain(alloc, engine, k) {
            Ok(Some(certificate)) => put_certificate(alloc, page, certificate),
            Ok(None) => Ok(()),
            Err(_) => Err(AllocError),
        }
    }
}

// Appends the line of a certificate, and drops the certificate.
fn put_certificate(
    alloc: Global,
    page: &mut Page,
    certificate: Certificate,
) -> Result<(), AllocError>
    ensures { OnOk result (page.new ≡ page.old ++ (certificate_text certificate ++ codes "\n")) }
{
    push_certificate(alloc, page, &certificate)
}

/// Appends the certificate of each statement's verdict to the page. Writes full pages to the sink meanwhile.
///
/// # Errors
/// A write failed, or memory ran out. A prefix of the page and the certificates may be written then.
pub(crate) fn pour_certificates<K: Sink>(
    alloc: Global,
    engine: &Engine,
    page: &mut Page,
    sink: &mut K,
) -> Result<(), SinkFault>
    ensures ok { OnOk result (Pours (K.held sink.old) (K.held sink.new) page.old page.new (certificate_lines engine.now)) }
    ensures prefix { AppendsPrefix (K.held sink.old) (K.held sink.new) (page.old ++ certificate_lines engine.now) }
    ensures cause { HasSinkCause (K.faults sink.old) (K.faults sink.new) result }
{
    pour_table(alloc, &Certificates { engine }, page, sink)
}

// The result of the test of a certificate in these rows.
fn check(alloc: Global, engine: &Engine, certificate: &Certificate) -> Result<Checked, Memory>
    ensures { IfOk result (λ said. said ≡ checked engine.now certificate.now) }
{
    engine.lawful();
    check_certificate(alloc, engine, certificate)
}

/// Appends the result of the test of a certificate to the page, and drops the certificate.
#[inline(never)]
pub(crate) fn say_checked(
    alloc: Global,
    engine: &Engine,
    page: &mut Page,
    certificate: Certificate,
) -> Result<Option<RecordReason>, AllocError>
    ensures { IfOk result (λ refused. (refused ≡ None) × (page.new ≡ page.old ++ checked_line certificate.id (checked engine.now certificate))) }
{
    let Ok(said) = check(alloc, engine, &certificate) else {
        return Err(AllocError);
    };
    push_checked(page, certificate.id.as_str(), said)?;
    Ok(None)
}
