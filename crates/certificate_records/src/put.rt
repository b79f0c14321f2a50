// Certificates as JSON, a token at a time.
ghost use Rattle.json.specs.Tree.{json_tokens};
ghost use Rattle.record_writer.specs.Puts.{AppendsTokens};
ghost use Rattle.certificate_records.specs.Written.{truth_end, pair_json, plain_json, why_json, certificate_json};

use certificate_check::{Certificate, Why};
use cpe_records::truth_word;
use cpe_rows::{Memory, Truth, Wfn};
use json::{Token, Writer};
use record_writer::{put, put_names};
use std::alloc::Global;

// Writes the member `truth`, which is the last member, and the object's end.
fn put_truth(writer: &mut Writer, truth: Truth) -> Result<(), Memory>
    ensures { AppendsTokens result writer.old writer.new (truth_end truth) }
{
    put(
        writer,
        &[
            Token::Key("truth"),
            Token::String(truth_word(truth)),
            Token::EndObject,
        ],
    )
}

fn put_pair(
    alloc: Global,
    writer: &mut Writer,
    truth: Truth,
    fact: &[Wfn],
    item: &[Wfn],
) -> Result<(), Memory>
    ensures { AppendsTokens result writer.old writer.new (json_tokens (pair_json truth fact.now item.now)) }
{
    put(
        writer,
        &[Token::BeginObject, Token::Key("fact"), Token::BeginArray],
    )?;
    put_names(alloc, writer, fact)?;
    put(
        writer,
        &[Token::EndArray, Token::Key("item"), Token::BeginArray],
    )?;
    put_names(alloc, writer, item)?;
    put(writer, &[Token::EndArray])?;
    put_truth(writer, truth)?;
    Ok(())
}

fn put_plain(writer: &mut Writer, truth: Truth) -> Result<(), Memory>
    ensures { AppendsTokens result writer.old writer.new (json_tokens (plain_json truth)) }
{
    put(writer, &[Token::BeginObject])?;
    put_truth(writer, truth)?;
    Ok(())
}

/// Writes why a test has its truth. A child without a certificate is written as `null`.
fn put_why(alloc: Global, writer: &mut Writer, why: &Why) -> Result<(), Memory>
    ensures { AppendsTokens result writer.old writer.new (json_tokens (why_json why.now)) }
{
    match why {
        Why::Logic { truth, of } => {
            put(
                writer,
                &[Token::BeginObject, Token::Key("of"), Token::BeginArray],
            )?;
            for given in of.as_slice() {
                let Some(child) = given else {
                    put(writer, &[Token::Null])?;
                    continue;
                };
                put_why(alloc, writer, child)?;
            }
            put(writer, &[Token::EndArray])?;
            put_truth(writer, *truth)?;
            Ok(())
        }
        Why::Pair { truth, fact, item } => {
            put_pair(alloc, writer, *truth, fact.as_slice(), item.as_slice())
        }
        Why::Plain(truth) => put_plain(writer, *truth),
    }
}

/// Writes a certificate.
pub(crate) fn put_certificate_members(
    alloc: Global,
    writer: &mut Writer,
    certificate: &Certificate,
) -> Result<(), Memory>
    ensures { AppendsTokens result writer.old writer.new (json_tokens (certificate_json certificate.now)) }
{
    put(
        writer,
        &[
            Token::BeginObject,
            Token::Key("do"),
            Token::String("proof"),
            Token::Key("id"),
            Token::String(certificate.id.as_str()),
            Token::Key("why"),
        ],
    )?;
    put_why(alloc, writer, &certificate.why)?;
    put(writer, &[Token::EndObject])?;
    Ok(())
}
