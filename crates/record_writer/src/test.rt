// Tests of statements (NIST IR 7698) as JSON.
ghost use Rattle.std.specs.Prelude.{◌≡◌};
ghost use Rattle.json.specs.Tree.{json_tokens};
ghost use Rattle.record_writer.specs.Puts.{AppendsTokens};
ghost use Rattle.record_writer.specs.WrittenRecord.{fact_json, check_json, test_json};

use crate::object::{put_around_key, put_around_name};
use crate::write::put;
use cpe_records::operator_word;
use cpe_rows::{BoxedName, CheckKey, Memory, Test};
use json::{Token, Writer};
use std::alloc::Global;

fn put_fact(alloc: Global, writer: &mut Writer, name: &BoxedName) -> Result<(), Memory>
    ensures { AppendsTokens result writer.old writer.new (json_tokens (fact_json name.now)) }
{
    put_around_name(
        alloc,
        writer,
        &[Token::BeginObject, Token::Key("fact")],
        name.as_name(),
        &[Token::EndObject],
    )?;
    Ok(())
}

fn put_check(writer: &mut Writer, key: &CheckKey) -> Result<(), Memory>
    ensures { AppendsTokens result writer.old writer.new (json_tokens (check_json key.now)) }
{
    put_around_key(
        writer,
        key,
        &[Token::BeginObject, Token::Key("check"), Token::BeginObject],
        &[Token::EndObject, Token::EndObject],
    )
}

/// Writes a test.
pub(crate) fn put_test(alloc: Global, writer: &mut Writer, test: &Test) -> Result<(), Memory>
    ensures { AppendsTokens result writer.old writer.new (json_tokens (test_json test.now)) }
{
    match test {
        Test::Fact(name) => put_fact(alloc, writer, name),
        Test::Check(key) => put_check(writer, key),
        Test::Logic {
            operator,
            negate,
            of,
        } => {
            put(
                writer,
                &[
                    Token::BeginObject,
                    Token::Key("negate"),
                    Token::Bool(*negate),
                    Token::Key("of"),
                    Token::BeginArray,
                ],
            )?;
            for child in of.as_slice() {
                put_test(alloc, writer, child)?;
            }
            put(
                writer,
                &[
                    Token::EndArray,
                    Token::Key("op"),
                    Token::String(operator_word(*operator)),
                    Token::EndObject,
                ],
            )?;
            Ok(())
        }
    }
}
