//! What a proxy's core has put out, and what it has accepted.

ghost use Rattle.std.specs.Prelude.{◌≡◌, length};
ghost use Rattle.vupresal_c.specs.Copies.{filled};
ghost use Rattle.vupresal_c.specs.Handles.{core_in};
ghost use Rattle.vupresal_c.specs.Outputs.{ads_in, generation_in, http_in};

use crate::copying::copy;
use crate::proxy::Proxy;
use std::alloc::Global;

/// Copies as many of the last event's bytes for the update stream as the room takes. Returns how many there are.
#[unsafe(no_mangle)]
pub extern "C" fn vupresal_proxy_ads_output(
    alloc: Global,
    proxy: &mut Proxy,
    room: &mut [u8],
) -> usize
    ensures count { result ≡ length (ads_in (core_in proxy.old)) }
    ensures filled { room.new ≡ filled (ads_in (core_in proxy.old)) room.old }
    ensures kept { core_in proxy.new ≡ core_in proxy.old }
{
    let Some(core) = proxy.take(alloc) else {
        return copy(b"", room);
    };
    let length = copy(&core.output.ads, room);
    proxy.put(core);
    length
}

/// Copies as many of the last event's bytes for its connection as the room takes. Returns how many there are.
#[unsafe(no_mangle)]
pub extern "C" fn vupresal_proxy_http_output(
    alloc: Global,
    proxy: &mut Proxy,
    room: &mut [u8],
) -> usize
    ensures count { result ≡ length (http_in (core_in proxy.old)) }
    ensures filled { room.new ≡ filled (http_in (core_in proxy.old)) room.old }
    ensures kept { core_in proxy.new ≡ core_in proxy.old }
{
    let Some(core) = proxy.take(alloc) else {
        return copy(b"", room);
    };
    let length = copy(&core.output.http, room);
    proxy.put(core);
    length
}

/// How many responses of the control plane were accepted; 0 if the handle is empty.
#[unsafe(no_mangle)]
pub extern "C" fn vupresal_proxy_generation(alloc: Global, proxy: &mut Proxy) -> u64
    ensures generation { result ≡ generation_in (core_in proxy.old) }
    ensures kept { core_in proxy.new ≡ core_in proxy.old }
{
    let Some(core) = proxy.take(alloc) else {
        return 0;
    };
    let generation = core.proxy.client().generation();
    proxy.put(core);
    generation
}
