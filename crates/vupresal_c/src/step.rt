//! Events of a proxy's core.

ghost use Rattle.std.specs.Prelude.{◌≡◌, Some};
ghost use Rattle.proxy_core.specs.Events.{ads_bytes, ads_lost, ads_up, event_view, http_bytes, http_closed, http_open, output_view};
ghost use Rattle.vupresal_c.specs.Handles.{core_in};
ghost use Rattle.vupresal_c.specs.Steps.{OpensFrom, StepsTo, given_of, nothing_given};

use crate::fault::{Fault, OK};
use crate::proxy::Proxy;
use c_inputs::{FactsInput, conn_of};
use c_slots::Core;
use proto_wire::Refusal;
use proxy_core::{Event, Output};
use std::alloc::Global;

/// What an event gives: how many bytes to send, and what to close after them.
#[repr(C)]
#[derive(Drop)]
pub struct Given {
    pub ads_length: usize,
    pub http_length: usize,
    pub closes_ads: bool,
    pub closes_http: bool,
}

impl Given {
    fn nothing() -> Given
        ensures { result ≡ nothing_given }
    {
        Given {
            ads_length: 0,
            http_length: 0,
            closes_ads: false,
            closes_http: false,
        }
    }

    fn of(output: &Output) -> Given
        ensures { result ≡ given_of (output_view output.now) }
    {
        Given {
            ads_length: output.ads.len(),
            http_length: output.http.len(),
            closes_ads: output.ads_close,
            closes_http: output.http_close,
        }
    }
}

// Gives the event to the core in the handle. After a status that is not 0, the handle is as before.
fn step(alloc: Global, proxy: &mut Proxy, event: Event<'_>, given: &mut Given) -> i32
    ensures { StepsTo (core_in proxy.old) (event_view event.entry) result given.new (core_in proxy.new) }
{
    let Some(mut core) = proxy.take(alloc) else {
        *given = Given::nothing();
        return Fault::Empty.status();
    };
    let status = step_core(&mut core, event, given);
    proxy.put(core);
    status
}

fn step_core(core: &mut Core, event: Event<'_>, given: &mut Given) -> i32
    ensures { StepsTo (Some core.old) (event_view event.entry) result given.new (Some core.new) }
{
    match core.proxy.step(event) {
        Ok(output) => {
            *given = Given::of(&output);
            core.output = output;
            OK
        }
        Err(_) => {
            *given = Given::nothing();
            Fault::Refused(Refusal::Memory).status()
        }
    }
}

/// The update stream comes up. If one is up already, it is lost first.
#[unsafe(no_mangle)]
pub extern "C" fn vupresal_proxy_ads_up(alloc: Global, proxy: &mut Proxy, given: &mut Given) -> i32
    ensures { StepsTo (core_in proxy.old) ads_up result given.new (core_in proxy.new) }
{
    step(alloc, proxy, Event::AdsUp, given)
}

/// The update stream delivers bytes.
#[unsafe(no_mangle)]
pub extern "C" fn vupresal_proxy_ads_bytes(
    alloc: Global,
    proxy: &mut Proxy,
    bytes: &[u8],
    given: &mut Given,
) -> i32
    ensures { StepsTo (core_in proxy.old) (ads_bytes bytes.now) result given.new (core_in proxy.new) }
{
    step(alloc, proxy, Event::AdsBytes(bytes), given)
}

/// The update stream is lost.
#[unsafe(no_mangle)]
pub extern "C" fn vupresal_proxy_ads_lost(
    alloc: Global,
    proxy: &mut Proxy,
    given: &mut Given,
) -> i32
    ensures { StepsTo (core_in proxy.old) ads_lost result given.new (core_in proxy.new) }
{
    step(alloc, proxy, Event::AdsLost, given)
}

// Opens the connection of this number in the core.
fn open_in(
    alloc: Global,
    core: &mut Core,
    number: u64,
    facts: &FactsInput<'_>,
    given: &mut Given,
) -> i32
    ensures { OpensFrom (Some core.old) number facts.now result given.new (Some core.new) }
{
    match conn_of(alloc, facts) {
        Ok(conn) => step_core(core, Event::HttpOpen(number, &conn), given),
        Err(fault) => {
            *given = Given::nothing();
            Fault::from(fault).status()
        }
    }
}

/// A connection of this number, 0 to 7, opens with these facts. The status is also 400, for a text of the facts that is
/// not UTF-8 or has more than 65,536 bytes. It is -2 for a port or an address out of range.
#[unsafe(no_mangle)]
pub extern "C" fn vupresal_proxy_http_open(
    alloc: Global,
    proxy: &mut Proxy,
    number: u64,
    facts: &FactsInput<'_>,
    given: &mut Given,
) -> i32
    ensures { OpensFrom (core_in proxy.old) number facts.now result given.new (core_in proxy.new) }
{
    let Some(mut core) = proxy.take(alloc) else {
        *given = Given::nothing();
        return Fault::Empty.status();
    };
    let status = open_in(alloc, &mut core, number, facts, given);
    proxy.put(core);
    status
}

/// The connection of this number delivers bytes.
#[unsafe(no_mangle)]
pub extern "C" fn vupresal_proxy_http_bytes(
    alloc: Global,
    proxy: &mut Proxy,
    number: u64,
    bytes: &[u8],
    given: &mut Given,
) -> i32
    ensures { StepsTo (core_in proxy.old) (http_bytes number bytes.now) result given.new
        (core_in proxy.new) }
{
    step(alloc, proxy, Event::HttpBytes(number, bytes), given)
}

/// The connection of this number is closed.
#[unsafe(no_mangle)]
pub extern "C" fn vupresal_proxy_http_closed(
    alloc: Global,
    proxy: &mut Proxy,
    number: u64,
    given: &mut Given,
) -> i32
    ensures { StepsTo (core_in proxy.old) (http_closed number) result given.new (core_in proxy.new) }
{
    step(alloc, proxy, Event::HttpClosed(number), given)
}
