//! Conversions between uint, int, string and bytes (CEL language definition, "List of Standard Definitions").

ghost use Rattle.std.specs.Prelude.{◌≡◌, ◌≢◌, false, IfErr, IfOk, MatchResult, None, Some, true};
ghost use Rattle.std.specs.Arc.{arc_slice_items};
ghost use Rattle.std.specs.Str.{is_utf8};
ghost use Rattle.cel_value.specs.Texts.{text_view, utf8_of};
ghost use Rattle.cel_value.specs.Values.{text, value};
ghost use Rattle.cel_value.specs.View.{answer_view, value_view};
ghost use Rattle.cel_value.specs.declared.error.CelError.TheVariants.{InvalidText};
ghost use Rattle.cel_ops.specs.Conversions.{MakesText, conversion, conversion_of, int_of_uint, text_of_bytes, text_of_int, text_of_uint, uint_of_int};

use cel_value::{Answer, CelError, Value};
use std::alloc::{AllocError, Global};
use std::str;
use std::sync::{ArcSlice, ArcStr};

/// A conversion: what is converted, and to what.
#[derive(Clone, Copy, PartialEq, Eq, Debug)]
pub enum Conversion {
    /// `int` of a uint.
    UintToInt,
    /// `uint` of an int.
    IntToUint,
    /// `string` of an int: its decimal digits, after `-` if it is negative.
    IntToText,
    /// `string` of a uint: its decimal digits.
    UintToText,
    /// `string` of bytes: the text whose UTF-8 they are.
    BytesToText,
    /// `bytes` of a text: its UTF-8.
    TextToBytes,
}

/// `int`, `uint`, `string` and `bytes`: the error, or the value converted. `Range` if the number is none of the
/// other type, `InvalidText` if the bytes are not UTF-8. Only an answer that is a text or bytes takes memory.
pub fn convert(alloc: Global, kind: Conversion, operand: &Answer) -> Result<Answer, AllocError>
    requires kinds { conversion kind (answer_view operand.now) ≢ None }
    ensures found { IfOk result (λ answer.
        Some (answer_view answer) ≡ conversion kind (answer_view operand.now)) }
    ensures memory { IfErr result (λ e. MakesText (conversion kind (answer_view operand.now))) }
{
    match operand {
        Err(error) => Ok(Err(*error)),
        Ok(value) => convert_value(alloc, kind, value),
    }
}

fn convert_value(alloc: Global, kind: Conversion, value: &Value) -> Result<Answer, AllocError>
    requires kinds { conversion_of kind (value_view value.now) ≢ None }
    ensures found { IfOk result (λ answer.
        Some (answer_view answer) ≡ conversion_of kind (value_view value.now)) }
    ensures memory { IfErr result (λ e. MakesText (conversion_of kind (value_view value.now))) }
{
    match (kind, value) {
        (Conversion::UintToInt, Value::Uint(n)) => Ok(int_of_uint(*n)),
        (Conversion::IntToUint, Value::Int(i)) => Ok(uint_of_int(*i)),
        (Conversion::IntToText, Value::Int(i)) => Ok(Ok(Value::Text(int_text(alloc, *i)?))),
        (Conversion::UintToText, Value::Uint(n)) => Ok(Ok(Value::Text(uint_text(alloc, *n)?))),
        (Conversion::BytesToText, Value::Bytes(bytes)) => text_of_bytes(alloc, bytes),
        (Conversion::TextToBytes, Value::Text(text)) => {
            Ok(Ok(Value::Bytes(text_bytes(alloc, text)?)))
        }
        _ => unreachable!(),
    }
}

fn int_of_uint(n: u64) -> Answer
    ensures { answer_view result ≡ int_of_uint n }
{
    if n < 9_223_372_036_854_775_808 {
        Ok(Value::Int(n as i64))
    } else {
        Err(CelError::Range)
    }
}

fn uint_of_int(i: i64) -> Answer
    ensures { answer_view result ≡ uint_of_int i }
{
    if i < 0 {
        Err(CelError::Range)
    } else {
        Ok(Value::Uint(i as u64))
    }
}

fn int_text(alloc: Global, i: i64) -> Result<ArcStr, AllocError>
    ensures found { IfOk result (λ t. Some (value (text (text_view t))) ≡ text_of_int i) }
    ensures memory { IfErr result (λ e. MakesText (text_of_int i)) }
{
    Ok(ArcStr::from_string(format!(in alloc; "{i}")?)?)
}

fn uint_text(alloc: Global, n: u64) -> Result<ArcStr, AllocError>
    ensures found { IfOk result (λ t. Some (value (text (text_view t))) ≡ text_of_uint n) }
    ensures memory { IfErr result (λ e. MakesText (text_of_uint n)) }
{
    Ok(ArcStr::from_string(format!(in alloc; "{n}")?)?)
}

fn text_of_bytes(alloc: Global, bytes: &[u8]) -> Result<Answer, AllocError>
    ensures found { IfOk result (λ answer. answer_view answer ≡ text_of_bytes bytes.now) }
    ensures memory { IfErr result (λ e. MakesText (Some (text_of_bytes bytes.now))) }
{
    match valid_text(bytes) {
        Ok(text) => Ok(Ok(Value::Text(ArcStr::from_str(alloc, text)?))),
        Err(error) => Ok(Err(error)),
    }
}

// The bytes as a text; `InvalidText` if they are not UTF-8. It takes no memory.
fn valid_text(bytes: &[u8]) -> Result<&str, CelError>
    ensures { MatchResult result (λ t. (t.now ≡ bytes.now) × (is_utf8 bytes.now ≡ true))
        (λ e. (e ≡ InvalidText) × (is_utf8 bytes.now ≡ false)) }
{
    match str::from_utf8(bytes) {
        Ok(text) => Ok(text),
        Err(_) => Err(CelError::InvalidText),
    }
}

fn text_bytes(alloc: Global, text: &ArcStr) -> Result<ArcSlice<u8>, AllocError>
    ensures { IfOk result (λ bytes. arc_slice_items bytes ≡ utf8_of (text_view text.now)) }
{
    ArcSlice::from_slice(alloc, text.as_str().as_bytes())
}
