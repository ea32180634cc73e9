//! The parts of a word, and the numbers in it of attributes, operations and types of keys.

ghost use Rattle.std.specs.Prelude.{◌≡◌, ◌+◌, ◌*◌, ◌/◌, ◌%◌, ◌<◌, Some, slice_get};
ghost use Rattle.machine_code.specs.Packing.{attribute_table, key_table, operation_table};

use attributes::AttrId;
use cel_ops::{ArithmeticOp, CompareOp, Conversion, Operation, TextTest};
use cel_value::KeyType;

/// The word of these parts.
#[inline(always)]
pub(crate) fn word_of(kind: u8, small: u8, wide: u16) -> u32
    ensures { result ≡ kind + 256 * small + 65536 * wide }
{
    kind as u32 + 256 * (small as u32) + 65_536 * (wide as u32)
}

#[inline(always)]
pub(crate) fn kind_of(word: u32) -> u8
    ensures { result ≡ word % 256 }
{
    (word % 256) as u8
}

#[inline(always)]
pub(crate) fn small_of(word: u32) -> u8
    ensures { result ≡ word / 256 % 256 }
{
    (word / 256 % 256) as u8
}

#[inline(always)]
pub(crate) fn wide_of(word: u32) -> u16
    ensures { result ≡ word / 65536 }
{
    (word / 65_536) as u16
}

#[inline(always)]
pub(crate) fn attribute_number(id: AttrId) -> u8
    ensures { slice_get attribute_table result ≡ Some id }
{
    match id {
        AttrId::RequestPath => 0,
        AttrId::RequestUrlPath => 1,
        AttrId::RequestHost => 2,
        AttrId::RequestScheme => 3,
        AttrId::RequestMethod => 4,
        AttrId::RequestHeaders => 5,
        AttrId::RequestReferer => 6,
        AttrId::RequestUseragent => 7,
        AttrId::RequestId => 8,
        AttrId::RequestProtocol => 9,
        AttrId::RequestQuery => 10,
        AttrId::SourceAddress => 11,
        AttrId::SourcePort => 12,
        AttrId::DestinationAddress => 13,
        AttrId::DestinationPort => 14,
        AttrId::ConnectionMtls => 15,
        AttrId::ConnectionId => 16,
        AttrId::ConnectionRequestedServerName => 17,
        AttrId::ConnectionTlsVersion => 18,
        AttrId::ConnectionSubjectPeerCertificate => 19,
        AttrId::ConnectionDnsSanPeerCertificate => 20,
        AttrId::ConnectionUriSanPeerCertificate => 21,
    }
}

#[inline(always)]
pub(crate) fn attribute_of(number: u8) -> AttrId
    requires { number < 22 }
    ensures { slice_get attribute_table number ≡ Some result }
{
    match number {
        0 => AttrId::RequestPath,
        1 => AttrId::RequestUrlPath,
        2 => AttrId::RequestHost,
        3 => AttrId::RequestScheme,
        4 => AttrId::RequestMethod,
        5 => AttrId::RequestHeaders,
        6 => AttrId::RequestReferer,
        7 => AttrId::RequestUseragent,
        8 => AttrId::RequestId,
        9 => AttrId::RequestProtocol,
        10 => AttrId::RequestQuery,
        11 => AttrId::SourceAddress,
        12 => AttrId::SourcePort,
        13 => AttrId::DestinationAddress,
        14 => AttrId::DestinationPort,
        15 => AttrId::ConnectionMtls,
        16 => AttrId::ConnectionId,
        17 => AttrId::ConnectionRequestedServerName,
        18 => AttrId::ConnectionTlsVersion,
        19 => AttrId::ConnectionSubjectPeerCertificate,
        20 => AttrId::ConnectionDnsSanPeerCertificate,
        21 => AttrId::ConnectionUriSanPeerCertificate,
        _ => unreachable!(),
    }
}

#[inline(always)]
pub(crate) fn operation_number(op: Operation) -> u8
    ensures { slice_get operation_table result ≡ Some op }
{
    match op {
        Operation::Arithmetic(ArithmeticOp::Add) => 0,
        Operation::Arithmetic(ArithmeticOp::Subtract) => 1,
        Operation::Arithmetic(ArithmeticOp::Multiply) => 2,
        Operation::Arithmetic(ArithmeticOp::Divide) => 3,
        Operation::Arithmetic(ArithmeticOp::Remainder) => 4,
        Operation::Negate => 5,
        Operation::Not => 6,
        Operation::NotStrictlyFalse => 7,
        Operation::And => 8,
        Operation::Or => 9,
        Operation::Compare(CompareOp::Equal) => 10,
        Operation::Compare(CompareOp::NotEqual) => 11,
        Operation::Compare(CompareOp::Less) => 12,
        Operation::Compare(CompareOp::LessOrEqual) => 13,
        Operation::Compare(CompareOp::Greater) => 14,
        Operation::Compare(CompareOp::GreaterOrEqual) => 15,
        Operation::TestText(TextTest::Contains) => 16,
        Operation::TestText(TextTest::StartsWith) => 17,
        Operation::TestText(TextTest::EndsWith) => 18,
        Operation::Concat => 19,
        Operation::Size => 20,
        Operation::ListIndex => 21,
        Operation::MapIndex => 22,
        Operation::InMap => 23,
        Operation::InList => 24,
        Operation::Convert(Conversion::UintToInt) => 25,
        Operation::Convert(Conversion::IntToUint) => 26,
        Operation::Convert(Conversion::IntToText) => 27,
        Operation::Convert(Conversion::UintToText) => 28,
        Operation::Convert(Conversion::BytesToText) => 29,
        Operation::Convert(Conversion::TextToBytes) => 30,
    }
}

#[inline(always)]
pub(crate) fn operation_of(number: u8) -> Operation
    requires { number < 31 }
    ensures { slice_get operation_table number ≡ Some result }
{
    match number {
        0 => Operation::Arithmetic(ArithmeticOp::Add),
        1 => Operation::Arithmetic(ArithmeticOp::Subtract),
        2 => Operation::Arithmetic(ArithmeticOp::Multiply),
        3 => Operation::Arithmetic(ArithmeticOp::Divide),
        4 => Operation::Arithmetic(ArithmeticOp::Remainder),
        5 => Operation::Negate,
        6 => Operation::Not,
        7 => Operation::NotStrictlyFalse,
        8 => Operation::And,
        9 => Operation::Or,
        10 => Operation::Compare(CompareOp::Equal),
        11 => Operation::Compare(CompareOp::NotEqual),
        12 => Operation::Compare(CompareOp::Less),
        13 => Operation::Compare(CompareOp::LessOrEqual),
        14 => Operation::Compare(CompareOp::Greater),
        15 => Operation::Compare(CompareOp::GreaterOrEqual),
        16 => Operation::TestText(TextTest::Contains),
        17 => Operation::TestText(TextTest::StartsWith),
        18 => Operation::TestText(TextTest::EndsWith),
        19 => Operation::Concat,
        20 => Operation::Size,
        21 => Operation::ListIndex,
        22 => Operation::MapIndex,
        23 => Operation::InMap,
        24 => Operation::InList,
        25 => Operation::Convert(Conversion::UintToInt),
        26 => Operation::Convert(Conversion::IntToUint),
        27 => Operation::Convert(Conversion::IntToText),
        28 => Operation::Convert(Conversion::UintToText),
        29 => Operation::Convert(Conversion::BytesToText),
        30 => Operation::Convert(Conversion::TextToBytes),
        _ => unreachable!(),
    }
}

#[inline(always)]
pub(crate) fn key_number(key: KeyType) -> u8
    ensures { slice_get key_table result ≡ Some key }
{
    match key {
        KeyType::Bool => 0,
        KeyType::Int => 1,
        KeyType::Uint => 2,
        KeyType::Text => 3,
    }
}

#[inline(always)]
pub(crate) fn key_of(number: u8) -> KeyType
    requires { number < 4 }
    ensures { slice_get key_table number ≡ Some result }
{
    match number {
        0 => KeyType::Bool,
        1 => KeyType::Int,
        2 => KeyType::Uint,
        3 => KeyType::Text,
        _ => unreachable!(),
    }
}
