//! Why a response of a control plane was refused, for its author. No contract describes the texts.

use crate::refused_part::RefusedPart;
use ads::{Config, Refused};
use std::alloc::Global;

/// The filter that refused a response, and the part of it that has the fault, as far as they are known.
#[derive(Drop)]
pub struct ResponseFault<'a> {
    /// The name of the filter.
    pub filter: Option<&'a str>,
    /// The part of the filter.
    pub part: RefusedPart,
}

/// The filter of this configuration that refused a response, and the part of it that has the fault.
pub fn fault_of<'a>(alloc: Global, refused: &Refused, config: &'a Config) -> ResponseFault<'a> {
    let Some(place) = refused.filter else {
        return unknown();
    };
    let Some((name, budget)) = config.filters().get_index(place) else {
        return unknown();
    };
    let message = &refused.message;
    ResponseFault {
        filter: Some(name.as_str()),
        part: RefusedPart::at(alloc, message, &refused.fault, refused.left, *budget),
    }
}

// No filter is known.
fn unknown<'a>() -> ResponseFault<'a> {
    ResponseFault {
        filter: None,
        part: RefusedPart::unknown(),
    }
}
