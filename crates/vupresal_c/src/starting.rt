//! New proxies.

ghost use Rattle.std.specs.Prelude.{◌≡◌, ◌≢◌, IsSomeAnd, IsTrue};
ghost use Rattle.vupresal_c.specs.Handles.{core_in};
ghost use Rattle.vupresal_c.specs.Settings.{IsNewCore, SettingsFail, are_too_long};
ghost use Rattle.vupresal_c.specs.Statuses.{done, status_of};
ghost use Rattle.vupresal_c.specs.declared.fault.Fault.{Fault as FaultValue};
ghost use Rattle.vupresal_c.specs.declared.fault.Fault.TheVariants.{OutOfRange};

use crate::fault::{Fault, OK};
use crate::proxy::Proxy;
use crate::settings::{Settings, core_of};
use std::alloc::Global;

/// Puts the core of a new proxy into the handle, instead of what it held. The status is 0, 19, or -2 for settings out of
/// range. If it is not 0, the handle is as before. If there are more filters or longer names than there may be, no byte of a
/// name is read.
#[unsafe(no_mangle)]
pub extern "C" fn vupresal_proxy_new(
    alloc: Global,
    proxy: &mut Proxy,
    settings: &Settings<'_>,
) -> i32
    ensures found { result ≡ done → IsSomeAnd (core_in proxy.new) (IsNewCore settings.now) }
    ensures fault { result ≢ done
        → (e : FaultValue) × SettingsFail settings.now e × (result ≡ status_of e) }
    ensures long { IsTrue (are_too_long settings.now) → result ≡ status_of OutOfRange }
    ensures kept { result ≢ done → core_in proxy.new ≡ core_in proxy.old }
{
    if settings.are_too_long() {
        return Fault::OutOfRange.status();
    }
    match core_of(alloc, settings) {
        Ok(core) => {
            drop(proxy.take(alloc));
            proxy.put(core);
            OK
        }
        Err(fault) => fault.status(),
    }
}
