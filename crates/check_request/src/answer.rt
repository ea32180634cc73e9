//! The bytes of the answer to a CheckRequest (`envoy.service.auth.v3.CheckResponse`).

ghost use Rattle.std.specs.Prelude.{◌≡◌, List, IfOk, OnOk, map};
ghost use Rattle.proto_wire.specs.Fields.{IsFieldNumber, Wire};
ghost use Rattle.xds_wire.specs.View.{texts_view};
ghost use Rattle.xds_wire.specs.Written.{AreEach, string_fields, strings_fields};
ghost use Rattle.xds_wire.specs.private.Writing.{Adds};
ghost use Rattle.check_request.specs.Answers.{AnswerWritten, CodeWritten, DeniedWritten, HeaderWritten, OkWritten, OptionWritten, ResponseWritten, answer_of, body_of, number_fields, status_of};
ghost use Rattle.check_request.specs.View.{set_view};

use crate::outcome::Outcome;
use proto_wire::Writer;
use std::alloc::{AllocError, Global};

/// A header that is set.
#[derive(Clone, Copy, Debug)]
pub struct SetHeader<'a> {
    pub name: &'a str,
    pub value: &'a str,
}

// The numbers of the fields of a CheckResponse.
const STATUS: u32 = 1;

const DENIED_RESPONSE: u32 = 2;

const OK_RESPONSE: u32 = 3;

// The number of `status` in a DeniedHttpResponse.
const HTTP_STATUS: u32 = 1;

// The number of `headers` in a DeniedHttpResponse and in an OkHttpResponse.
const HEADERS: u32 = 2;

// The number of `body` in a DeniedHttpResponse.
const BODY: u32 = 3;

// The number of `headers_to_remove` in an OkHttpResponse.
const HEADERS_TO_REMOVE: u32 = 5;

// The numbers of the fields of a HeaderValueOption.
const HEADER: u32 = 1;

const APPEND_ACTION: u32 = 3;

// The action that sets a header, whether it is there or not.
const OVERWRITE: u32 = 2;

// The numbers of the fields of a HeaderValue.
const KEY: u32 = 1;

const VALUE: u32 = 2;

// The number of `code` in a Status and in an HttpStatus.
const CODE: u32 = 1;

/// The bytes of the CheckResponse of this outcome. The headers are set for the application if the request is allowed, and
/// else for the client. Names of headers that are removed count only if it is allowed.
pub fn write_answer(
    alloc: Global,
    outcome: Outcome,
    set: &[SetHeader<'_>],
    remove: &[&str],
) -> Result<Vec<u8>, AllocError>
    ensures { IfOk result (λ v.
        AnswerWritten (answer_of outcome (map set_view set.now) (texts_view remove.now)) v.items) }
{
    let code = outcome.code();
    if code == 0 {
        let ok = ok_bytes(alloc, set, remove)?;
        return response_bytes(alloc, code, OK_RESPONSE, &ok);
    }
    let denied = denied_bytes(alloc, outcome, set)?;
    response_bytes(alloc, code, DENIED_RESPONSE, &denied)
}

// A CheckResponse of this code, whose oneof has this number and these bytes.
fn response_bytes(
    alloc: Global,
    code: u32,
    number: u32,
    inner: &[u8],
) -> Result<Vec<u8>, AllocError>
    requires { IsFieldNumber number }
    ensures { IfOk result (λ v. ResponseWritten code number inner.now v.items) }
{
    let status = code_bytes(alloc, code)?;
    let mut writer = Writer::new(Vec::new(alloc));
    writer.message(STATUS, &status)?;
    writer.message(number, inner)?;
    Ok(writer.into_bytes())
}

// An OkHttpResponse.
fn ok_bytes(alloc: Global, set: &[SetHeader<'_>], remove: &[&str]) -> Result<Vec<u8>, AllocError>
    ensures { IfOk result (λ v. OkWritten (map set_view set.now) (texts_view remove.now) v.items) }
{
    let mut writer = Writer::new(Vec::new(alloc));
    put_options(alloc, &mut writer, set)?;
    put_names(&mut writer, remove)?;
    Ok(writer.into_bytes())
}

// A DeniedHttpResponse.
fn denied_bytes(
    alloc: Global,
    outcome: Outcome,
    set: &[SetHeader<'_>],
) -> Result<Vec<u8>, AllocError>
    ensures { IfOk result (λ v.
        DeniedWritten (status_of outcome) (map set_view set.now) (body_of outcome) v.items) }
{
    let status = code_bytes(alloc, u32::from(outcome.status()))?;
    let mut writer = Writer::new(Vec::new(alloc));
    writer.message(HTTP_STATUS, &status)?;
    put_options(alloc, &mut writer, set)?;
    put_text(&mut writer, BODY, outcome.body())?;
    Ok(writer.into_bytes())
}

// A Status of this code, or an HttpStatus.
fn code_bytes(alloc: Global, code: u32) -> Result<Vec<u8>, AllocError>
    ensures { IfOk result (λ v. CodeWritten code v.items) }
{
    let mut writer = Writer::new(Vec::new(alloc));
    put_number(&mut writer, CODE, code)?;
    Ok(writer.into_bytes())
}

// Writes each of the headers as one that is set.
fn put_options(alloc: Global, writer: &mut Writer, set: &[SetHeader<'_>]) -> Result<(), AllocError>
    ensures { OnOk result ((fs : List Wire) × AreEach OptionWritten 2 (map set_view set.now) fs
        × Adds writer.old fs writer.new) }
{
    for header in set {
        let bytes = option_bytes(alloc, header)?;
        writer.message(HEADERS, &bytes)?;
    }
    Ok(())
}

// Writes each of the names of headers that are removed.
fn put_names(writer: &mut Writer, names: &[&str]) -> Result<(), AllocError>
    ensures { OnOk result (Adds writer.old (strings_fields 5 (texts_view names.now)) writer.new) }
{
    for name in names {
        writer.text(HEADERS_TO_REMOVE, name)?;
    }
    Ok(())
}

// A HeaderValueOption, which sets the header.
fn option_bytes(alloc: Global, header: &SetHeader<'_>) -> Result<Vec<u8>, AllocError>
    ensures { IfOk result (λ v. OptionWritten (set_view header.now) v.items) }
{
    let value = header_bytes(alloc, header)?;
    let mut writer = Writer::new(Vec::new(alloc));
    writer.message(HEADER, &value)?;
    put_number(&mut writer, APPEND_ACTION, OVERWRITE)?;
    Ok(writer.into_bytes())
}

// A HeaderValue.
fn header_bytes(alloc: Global, header: &SetHeader<'_>) -> Result<Vec<u8>, AllocError>
    ensures { IfOk result (λ v. HeaderWritten (set_view header.now) v.items) }
{
    let mut writer = Writer::new(Vec::new(alloc));
    put_text(&mut writer, KEY, header.name)?;
    put_text(&mut writer, VALUE, header.value)?;
    Ok(writer.into_bytes())
}

// Writes the string, unless it is empty.
fn put_text(writer: &mut Writer, number: u32, text: &str) -> Result<(), AllocError>
    requires { IsFieldNumber number }
    ensures { OnOk result (Adds writer.old (string_fields number text.now) writer.new) }
{
    if text.is_empty() {
        return Ok(());
    }
    writer.text(number, text)
}

// Writes the number, unless it is 0.
fn put_number(writer: &mut Writer, number: u32, value: u32) -> Result<(), AllocError>
    requires { IsFieldNumber number }
    ensures { OnOk result (Adds writer.old (number_fields number value) writer.new) }
{
    if value == 0 {
        return Ok(());
    }
    writer.varint(number, u64::from(value))
}
