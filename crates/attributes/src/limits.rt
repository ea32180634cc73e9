//! The limits of a request, and the test whether a request is within them.
ghost use Rattle.std.specs.Prelude.{◌≡◌, ◌+◌, ◌≤◌, ◌↔◌, IfOk, IsTrue, All, length};
ghost use Rattle.std.specs.FinMap.{entries};
ghost use Rattle.std.specs.Result.{result_err};
ghost use Rattle.attributes.specs.Conn.{AreFacts, conn_view, text_view};
ghost use Rattle.attributes.specs.Request.{protocol_of};
ghost use Rattle.attributes.specs.Limits.{AreLimits, FactsInLimits, InLimits, IsWithin, EntryInLimits, declared, first_fault, largest, limit_fault, limit_of, name_of};

use crate::conn::{Conn, facts_are_sound};
use crate::request::Request;
use std::error::Error;
use std::fmt;
use std::marker::Model;
use std::sync::ArcStr;

const MOST_FIELDS: usize = 64;

const MOST_NAME: usize = 128;

const MOST_VALUE: usize = 4096;

const MOST_METHOD: usize = 32;

const MOST_TARGET: usize = 4096;

const MOST_TEXT: usize = 1024;

/// One of the six limits.
#[derive(Clone, Copy, Debug, PartialEq, Eq)]
pub enum Limit {
    /// The number of field lines and the three pseudo-headers.
    Fields,
    /// The bytes of a field's name.
    Name,
    /// The bytes of a field's value, all its lines joined.
    Value,
    /// The bytes of the method.
    Method,
    /// The bytes of the target.
    Target,
    /// The bytes of any other text.
    Text,
}

impl Limit {
    /// The greatest value that may be declared for it.
    pub(crate) fn largest(self) -> usize
        ensures { result ≡ limit_of self largest }
    {
        match self {
            Limit::Fields => MOST_FIELDS,
            Limit::Name => MOST_NAME,
            Limit::Value => MOST_VALUE,
            Limit::Method => MOST_METHOD,
            Limit::Target => MOST_TARGET,
            Limit::Text => MOST_TEXT,
        }
    }

    /// The name by which a configuration declares it.
    pub(crate) fn name(self) -> &'static str
        ensures { result.now ≡ name_of self }
    {
        match self {
            Limit::Fields => "fields",
            Limit::Name => "name",
            Limit::Value => "value",
            Limit::Method => "method",
            Limit::Target => "target",
            Limit::Text => "text",
        }
    }
}

/// A fault of declared limits.
#[derive(Clone, Copy, Debug, PartialEq, Eq)]
pub enum LimitFault {
    /// This limit is 0.
    Zero(Limit),
    /// This limit is above the greatest that may be declared.
    Above(Limit),
}

impl fmt::Display for LimitFault {
    ghost use Rattle.std.specs.Prelude.{Some};
    ghost use Rattle.attributes.specs.Limits.{fault_text};

    ghost output = { λ fault. Some (fault_text fault) };

    fn fmt<W: fmt::Write>(&self, f: &mut fmt::Formatter<W>) -> fmt::Result {
        match self {
            LimitFault::Zero(limit) => {
                let name = limit.name();
                write!(f, "the limit {name} is 0")
            }
            LimitFault::Above(limit) => {
                let name = limit.name();
                let largest = limit.largest();
                write!(f, "the limit {name} is above {largest}")
            }
        }
    }
}

impl Error for LimitFault {}

/// Declared limits; none is 0 or above the greatest.
#[derive(Clone, Copy, Debug)]
pub struct Limits {
    fields: usize,
    name: usize,
    value: usize,
    method: usize,
    target: usize,
    text: usize,
}

impl Model for Limits {
    ghost use Rattle.attributes.specs.Limits.{LimitsValue, AreLimits, declared};

    ghost Value = { LimitsValue };

    ghost view = { λ l. declared l.fields l.name l.value l.method l.target l.text };

    ghost invariant = { λ l.
        AreLimits (declared l.fields l.name l.value l.method l.target l.text) };

    ghost inverse = { λ v. record {
      fields = v.fields;
      name = v.name;
      value = v.value;
      method = v.method;
      target = v.target;
      text = v.text;
    } };
}

impl Limits {
    /// Limits as declared: the number of fields, and the bytes of a name, a value, a method, a
    /// target and any other text. If some limit is 0 or above the greatest that may be declared,
    /// gives the first such fault in that order.
    pub fn new(
        fields: usize,
        name: usize,
        value: usize,
        method: usize,
        target: usize,
        text: usize,
    ) -> Result<Limits, LimitFault>
        ensures kept { IfOk result (λ l. l ≡ declared fields name value method target text) }
        ensures fault { result_err result
            ≡ first_fault (declared fields name value method target text) }
    {
        check_limit(Limit::Fields, fields)?;
        check_limit(Limit::Name, name)?;
        check_limit(Limit::Value, value)?;
        check_limit(Limit::Method, method)?;
        check_limit(Limit::Target, target)?;
        check_limit(Limit::Text, text)?;
        Ok(Limits {
            fields,
            name,
            value,
            method,
            target,
            text,
        })
    }

    /// The greatest limits that may be declared.
    pub fn largest() -> Limits
        ensures { result ≡ largest }
    {
        Limits {
            fields: MOST_FIELDS,
            name: MOST_NAME,
            value: MOST_VALUE,
            method: MOST_METHOD,
            target: MOST_TARGET,
            text: MOST_TEXT,
        }
    }

    /// The limit of this kind.
    pub fn get(&self, limit: Limit) -> usize
        ensures value { result ≡ limit_of limit self.now }
        ensures sound { AreLimits self.now }
    {
        match limit {
            Limit::Fields => self.fields,
            Limit::Name => self.name,
            Limit::Value => self.value,
            Limit::Method => self.method,
            Limit::Target => self.target,
            Limit::Text => self.text,
        }
    }

    /// Whether every count, name and text of the request is within the limits.
    pub fn fits(&self, request: &Request) -> bool
        ensures { IsTrue result ↔ InLimits request.now self.now }
    {
        self.fits_count(request.line_count())
            && self.fits_headers(request)
            && self.fits_head(request)
            && self.fits_conn(request.conn())
    }

    /// Whether each text of the connection is within the limit of texts.
    pub fn fits_conn(&self, conn: &Conn) -> bool
        ensures value { IsTrue result ↔ FactsInLimits (conn_view conn.now) self.now }
        ensures sound { AreFacts (conn_view conn.now) }
    {
        facts_are_sound(conn);
        fits_text(&conn.source_address, self.text)
            && fits_text(&conn.destination_address, self.text)
            && fits_text(&conn.requested_server_name, self.text)
            && fits_text(&conn.tls_version, self.text)
            && fits_text(&conn.subject_peer_certificate, self.text)
            && fits_text(&conn.dns_san_peer_certificate, self.text)
            && fits_text(&conn.uri_san_peer_certificate, self.text)
            && conn.scheme.len() <= self.text
    }

    // Whether the field lines and the three pseudo-headers are within their limit.
    fn fits_count(&self, lines: usize) -> bool
        ensures { IsTrue result ↔ (lines + 3 ≤ self.now.fields) }
    {
        self.fields >= 3 && lines <= self.fields - 3
    }

    // Whether the method, the target and the version, such as `HTTP/1.1`, are within their limits.
    fn fits_head(&self, request: &Request) -> bool
        ensures { IsTrue result ↔ ((length request.now.method ≤ self.now.method)
            × (length request.now.target ≤ self.now.target)
            × (length (protocol_of request.now.protocol) ≤ self.now.text)) }
    {
        request.method().len() <= self.method
            && request.target().len() <= self.target
            && request.protocol().text().len() <= self.text
    }

    // Whether each header's name and value are within their limits.
    fn fits_headers(&self, request: &Request) -> bool
        ensures { IsTrue result ↔ All (EntryInLimits self.now) (entries request.now.headers) }
    {
        request.headers().are_within(self.name, self.value)
    }
}

fn fits_text(text: &Option<ArcStr>, most: usize) -> bool
    ensures { IsTrue result ↔ IsWithin most (text_view text.now) }
{
    match text {
        Some(text) => text.len() <= most,
        None => true,
    }
}

fn check_limit(limit: Limit, declared: usize) -> Result<(), LimitFault>
    ensures { result_err result ≡ limit_fault limit declared }
{
    if declared == 0 {
        return Err(LimitFault::Zero(limit));
    }
    if declared > limit.largest() {
        return Err(LimitFault::Above(limit));
    }
    Ok(())
}
