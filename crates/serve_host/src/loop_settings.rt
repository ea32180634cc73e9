//! The settings of the server's loop, taken from those of the server.
ghost use Rattle.std.specs.Prelude.{◌≡◌};
ghost use Rattle.std.specs.List.{list_any};
ghost use Rattle.serve_host.specs.Loops.{is_descriptor, silence_of};

use serve_config::{Address, ControlAddress, ServeConfig};
use serve_loop::Settings;

/// The settings of the loop of a server that has so many connections open at once at most.
pub(crate) fn loop_settings(settings: &ServeConfig, at_once: usize) -> Settings
    ensures waiting { (result.pending ≡ settings.now.pending) × (result.at_once ≡ at_once) }
    ensures times { (result.head ≡ settings.now.timeouts.head) × (result.idle ≡ settings.now.timeouts.idle)
        × (result.write ≡ settings.now.timeouts.write) × (result.drain ≡ settings.now.timeouts.drain) }
    ensures updates { (result.first_backoff ≡ settings.now.first_backoff)
        × (result.greatest_backoff ≡ settings.now.greatest_backoff) × (result.refusal_pause ≡ settings.now.nack_pause)
        × (result.first_message ≡ settings.now.timeouts.first_response) }
    ensures silence { result.silence ≡ silence_of settings.now.control settings.now.silence }
    ensures shares { result.shares ≡ list_any is_descriptor settings.now.listen.items }
{
    Settings {
        pending: settings.pending,
        head: settings.timeouts.head,
        idle: settings.timeouts.idle,
        write: settings.timeouts.write,
        drain: settings.timeouts.drain,
        first_backoff: settings.first_backoff,
        greatest_backoff: settings.greatest_backoff,
        refusal_pause: settings.nack_pause,
        first_message: settings.timeouts.first_response,
        silence: silence_of(&settings.control, settings.silence),
        shares: may_share(&settings.listen),
        at_once,
    }
}

// After how many milliseconds without a byte the stream of updates ends; 0 for never, as that of a file.
fn silence_of(control: &ControlAddress, seconds: u64) -> u64
    ensures { result ≡ silence_of control.now seconds }
{
    match control {
        ControlAddress::File(_) => 0,
        ControlAddress::Tcp(_)
        | ControlAddress::Unix(_)
        | ControlAddress::GrpcTcp(_)
        | ControlAddress::GrpcUnix(_) => seconds.saturating_mul(1_000),
    }
}

// Whether other processes may accept connections of these addresses too: one is a socket that a supervisor opened.
fn may_share(listen: &[Address]) -> bool
    ensures { result ≡ list_any is_descriptor listen.now }
{
    listen.iter().any(|address| is_descriptor(address))
}

fn is_descriptor(address: &Address) -> bool
    ensures { result ≡ is_descriptor address.now }
{
    matches!(address, Address::Descriptor(_))
}
