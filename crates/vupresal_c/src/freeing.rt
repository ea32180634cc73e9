//! Frees of handles.

ghost use Rattle.std.specs.Prelude.{◌≡◌, [], None};
ghost use Rattle.vupresal_c.specs.Handles.{core_in, facts_in, filter_in, filters_in, request_in};

use crate::connection::Connection;
use crate::filter::Filter;
use crate::made_request::MadeRequest;
use crate::proxy::Proxy;
use crate::set::Set;
use std::alloc::Global;

/// Frees what the handle holds, and leaves it empty. An empty one may be freed again.
#[unsafe(no_mangle)]
pub extern "C" fn vupresal_filter_free(alloc: Global, filter: &mut Filter)
    ensures { filter_in filter.new ≡ None }
{
    drop(filter.take(alloc));
}

/// Frees what the handle holds, and leaves it empty. An empty one may be freed again.
#[unsafe(no_mangle)]
pub extern "C" fn vupresal_proxy_free(alloc: Global, proxy: &mut Proxy)
    ensures { core_in proxy.new ≡ None }
{
    drop(proxy.take(alloc));
}

/// Frees what the handle holds, and leaves it empty. An empty one may be freed again.
#[unsafe(no_mangle)]
pub extern "C" fn vupresal_connection_free(alloc: Global, connection: &mut Connection)
    ensures { facts_in connection.new ≡ None }
{
    drop(connection.take(alloc));
}

/// Frees what the handle holds, and leaves it empty. An empty one may be freed again.
#[unsafe(no_mangle)]
pub extern "C" fn vupresal_request_free(alloc: Global, made: &mut MadeRequest)
    ensures { request_in made.new ≡ None }
{
    drop(made.take(alloc));
}

/// Frees what the handle holds, and leaves it empty. An empty one may be freed again.
#[unsafe(no_mangle)]
pub extern "C" fn vupresal_set_free(alloc: Global, set: &mut Set)
    ensures { filters_in set.new ≡ [] }
{
    drop(set.take(alloc));
}
