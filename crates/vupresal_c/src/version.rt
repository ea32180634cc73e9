//! The version of the library, and the sizes of its structs.

ghost use Rattle.std.specs.Prelude.{◌≡◌};
ghost use Rattle.vupresal_c.specs.Version.{is_proved, number};

use crate::decision::Decision;
use crate::filter::Filter;
use crate::proxy::Proxy;
use crate::settings::{Resource, Settings};
use crate::step::Given;
use c_inputs::{Bounds, FactsInput, RequestInput};
use http_front::Line;
use std::mem::size_of;

// The version 0.1.0: a million for each first number, a thousand for each second one.
const NUMBER: u64 = 1_000;

// Whether each contract of the library is proved. A proof of this file is a part of the library's proof, which
// requires `true`. A build without a proof is compiled from a copy that says `false`.
const IS_PROVED: bool = true;

/// The library's version, and the size of each struct in bytes, by which a caller notices another header.
#[repr(C)]
#[derive(Drop)]
pub struct Build {
    pub number: u64,
    pub filter: usize,
    pub proxy: usize,
    pub bounds: usize,
    pub facts: usize,
    pub line: usize,
    pub request: usize,
    pub decision: usize,
    pub resource: usize,
    pub settings: usize,
    pub given: usize,
    pub build: usize,
    pub is_proved: bool,
}

/// Tells the library's version.
#[unsafe(no_mangle)]
pub extern "C" fn vupresal_version(build: &mut Build)
    ensures number { build.new.number ≡ number }
    ensures proved { build.new.is_proved ≡ is_proved }
{
    *build = Build {
        number: NUMBER,
        filter: size_of::<Filter>(),
        proxy: size_of::<Proxy>(),
        bounds: size_of::<Bounds>(),
        facts: size_of::<FactsInput<'_>>(),
        line: size_of::<Line<'_>>(),
        request: size_of::<RequestInput<'_>>(),
        decision: size_of::<Decision>(),
        resource: size_of::<Resource<'_>>(),
        settings: size_of::<Settings<'_>>(),
        given: size_of::<Given>(),
        build: size_of::<Build>(),
        is_proved: IS_PROVED,
    };
}
