//! What the admin port answers.

use crate::exposition::exposition;
use crate::guard::{has_own_origin, names_local_host};
use crate::metrics::Metrics;
use crate::page::PAGE;
use crate::page_data::{json_of, page_data};
use crate::reply::{Media, Reply};
use crate::route::{AdminAction, Route};
use crate::status::{FilterStatus, PoliciesStatus, Status};
use bytes::Bytes;
use http::{Request, StatusCode};
use http_server::{Response, Service};
use std::alloc::{AllocError, Global};

/// What the admin port answers: the counters and the status of a server.
#[derive(Debug, Drop)]
pub struct Admin {
    alloc: Global,
    pub metrics: Metrics,
    pub status: Status,
    action: Option<AdminAction>,
}

impl Admin {
    /// Of a server that has just been started, in milliseconds since 1970, with these filters.
    pub fn new(
        alloc: Global,
        node: String,
        started: u64,
        filters: Vec<FilterStatus>,
    ) -> Result<Admin, AllocError> {
        let metrics = Metrics::new(alloc, filters.len())?;
        let mut status = Status::new(alloc, node, started)?;
        status.filters = filters;
        Ok(Admin {
            alloc,
            metrics,
            status,
            action: None,
        })
    }

    /// A filter has new policies. Their matches are counted from 0 on. After an error nothing has changed.
    pub fn set_policies(
        &mut self,
        filter: usize,
        policies: PoliciesStatus,
    ) -> Result<(), AllocError> {
        self.metrics.set_policies(filter, policies.names.len())?;
        if let Some(status) = self.status.filters.get_mut(filter) {
            status.policies = Some(policies);
        }
        Ok(())
    }

    /// What a request asked the server to do. It is taken once.
    pub fn take_action(&mut self) -> Option<AdminAction> {
        self.action.take()
    }

    // The answer to a request, and what it asks the server to do.
    fn reply(&self, request: &Request<Bytes>) -> Result<(Reply, Option<AdminAction>), AllocError> {
        let alloc = self.alloc;
        if !names_local_host(request) {
            let words = "the host is neither an IP address nor localhost\n";
            return Ok((Reply::text(alloc, StatusCode::FORBIDDEN, words)?, None));
        }
        let Some(route) = Route::of(request.uri().path()) else {
            return Ok((
                Reply::text(alloc, StatusCode::NOT_FOUND, "not found\n")?,
                None,
            ));
        };
        let method = request.method().as_str();
        if let Route::Act(action) = route {
            if method != "POST" {
                return Ok((Reply::wrong_method(alloc, "POST")?, None));
            }
            return self.act(request, action);
        }
        if method != "GET" && method != "HEAD" {
            return Ok((Reply::wrong_method(alloc, "GET, HEAD")?, None));
        }
        Ok((self.shown(route)?, None))
    }

    // The answer to a request that asks the server to do something.
    fn act(
        &self,
        request: &Request<Bytes>,
        action: AdminAction,
    ) -> Result<(Reply, Option<AdminAction>), AllocError> {
        if !has_own_origin(request.headers()) {
            let words = "the request is from a page of another site\n";
            return Ok((Reply::text(self.alloc, StatusCode::FORBIDDEN, words)?, None));
        }
        Ok((
            Reply::text(self.alloc, StatusCode::OK, "ok\n")?,
            Some(action),
        ))
    }

    // The answer that shows what a route has.
    fn shown(&self, route: Route) -> Result<Reply, AllocError> {
        let alloc = self.alloc;
        let (media, body) = match route {
            Route::Ready => return self.ready(),
            Route::Config => (Media::Json, json_of(alloc, &self.status)?),
            Route::Metrics => (
                Media::Metrics,
                exposition(alloc, &self.metrics, &self.status)?,
            ),
            Route::Page => (Media::Html, page(alloc)?),
            Route::PageData => (Media::Json, page_data(alloc, &self.metrics, &self.status)?),
            Route::Health | Route::Act(_) => return Reply::text(alloc, StatusCode::OK, "ok\n"),
        };
        Ok(Reply::new(StatusCode::OK, media, body))
    }

    // Whether the server is ready, with the filters that have no policies.
    fn ready(&self) -> Result<Reply, AllocError> {
        if self.status.is_ready() {
            return Reply::text(self.alloc, StatusCode::OK, "ready\n");
        }
        let mut words = String::new(self.alloc);
        if self.status.drains {
            words.push_str("the server drains\n")?;
        }
        if self.status.is_stale() {
            words.push_str("the control plane is silent\n")?;
        }
        for filter in &self.status.filters {
            if filter.policies.is_none() {
                words.push_str("no policies yet: ")?;
                words.push_str(filter.name.as_str())?;
                words.push('\n')?;
            }
        }
        Reply::text(self.alloc, StatusCode::SERVICE_UNAVAILABLE, words.as_str())
    }
}

// The page as one text.
fn page(alloc: Global) -> Result<Vec<u8>, AllocError> {
    let mut text = Vec::new(alloc);
    for part in PAGE {
        text.extend_from_slice(part.as_bytes())?;
    }
    Ok(text)
}

impl Service for Admin {
    ghost answers = { λ old request response new. Unit {0} };

    fn call(
        &mut self,
        request: &Request<Bytes>,
        response: &mut Response,
    ) -> Result<(), AllocError> {
        let (reply, action) = self.reply(request)?;
        reply.fill(response)?;
        if action.is_some() {
            self.action = action;
        }
        Ok(())
    }
}
