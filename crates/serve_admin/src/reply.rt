//! An answer to an admin request.

use crate::page::POLICY;
use bytes::Bytes;
use http::{HeaderValue, StatusCode, header};
use http_server::Response;
use std::alloc::{AllocError, Global};

/// What a body is.
#[derive(Clone, Copy, PartialEq, Eq, Debug)]
pub(crate) enum Media {
    Text,
    Metrics,
    Json,
    Html,
}

/// An answer to an admin request.
#[derive(Drop)]
pub(crate) struct Reply {
    status: StatusCode,
    media: Media,
    // The methods that the path takes, if the request has another one.
    allow: Option<&'static str>,
    body: Vec<u8>,
}

impl Reply {
    /// An answer with a body.
    pub(crate) fn new(status: StatusCode, media: Media, body: Vec<u8>) -> Reply {
        Reply {
            status,
            media,
            allow: None,
            body,
        }
    }

    /// An answer in words.
    pub(crate) fn text(
        alloc: Global,
        status: StatusCode,
        words: &str,
    ) -> Result<Reply, AllocError> {
        Ok(Reply::new(
            status,
            Media::Text,
            Vec::from_slice(alloc, words.as_bytes())?,
        ))
    }

    /// The answer to a method that the path does not take.
    pub(crate) fn wrong_method(alloc: Global, allow: &'static str) -> Result<Reply, AllocError> {
        let mut reply = Reply::text(
            alloc,
            StatusCode::METHOD_NOT_ALLOWED,
            "method not allowed\n",
        )?;
        reply.allow = Some(allow);
        Ok(reply)
    }

    /// Writes the answer to a response that has no header and no body.
    pub(crate) fn fill(self, response: &mut Response) -> Result<(), AllocError> {
        let Reply {
            status,
            media,
            allow,
            body,
        } = self;
        response.status = status;
        response.add_header(header::CONTENT_TYPE, content_type(media))?;
        response.add_header(header::CACHE_CONTROL, HeaderValue::from_static("no-store"))?;
        response.add_header(
            header::X_CONTENT_TYPE_OPTIONS,
            HeaderValue::from_static("nosniff"),
        )?;
        if media == Media::Html {
            response.add_header(
                header::CONTENT_SECURITY_POLICY,
                HeaderValue::from_static(POLICY),
            )?;
        }
        match allow {
            Some("POST") => response.add_header(header::ALLOW, HeaderValue::from_static("POST"))?,
            Some(_) => response.add_header(header::ALLOW, HeaderValue::from_static("GET, HEAD"))?,
            None => {}
        }
        response.add_header(header::CONNECTION, HeaderValue::from_static("close"))?;
        Ok(response.body.push(Bytes::from_vec(body)?)?)
    }
}

fn content_type(media: Media) -> HeaderValue {
    match media {
        Media::Text => HeaderValue::from_static("text/plain; charset=utf-8"),
        Media::Metrics => HeaderValue::from_static("text/plain; version=0.0.4"),
        Media::Json => HeaderValue::from_static("application/json"),
        Media::Html => HeaderValue::from_static("text/html; charset=utf-8"),
    }
}
