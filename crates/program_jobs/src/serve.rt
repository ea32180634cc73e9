//! The jobs that serve over sockets: the control plane and the proxy.
ghost use Rattle.std.specs.Prelude.{◌≡◌, ⊤, List, Option, ℕ, IfErr, IfOk, OnErr, OnOk, option_map, string_bytes};
ghost use Rattle.attributes.specs.Conn.{conn_view};
ghost use Rattle.attributes.specs.Limits.{FactsInLimits};
ghost use Rattle.ads.specs.Ends.{control_view};
ghost use Rattle.stream_pumps.specs.ControlPump.{ServesStream};
ghost use Rattle.stream_pumps.specs.Rounds.{Link, ServesOneStream};
ghost use Rattle.program_jobs.specs.Jobs.{CannotListen, CannotLog, EndsControl, EndsProxy, IsConnOf, IsProxied, IsServed, LacksFit, StopsControl, StopsProxy, acknowledged_line, streams_of};
ghost use Rattle.command_line.specs.Words.{AreWhole};
ghost use Rattle.program_jobs.specs.private.Stopping.{MemoryOrStop};

use crate::ending::{end_by, end_by_memory, show};
use crate::files::Source;
use crate::job_fault::JobFault;
use crate::reading::conn_of;
use crate::settings::config_file;
use crate::snapshots::snapshots_of;
use crate::sockets::{Listen, Sockets};
use ads::Control;
use attributes::{Conn, Limits};
use command_line::{ControlWords, ProxyWords};
use grpc_server::call_on;
use proxy_core::Proxy;
use rbac_judge::Notes;
use std::alloc::{AllocError, Global};
use std::io::{self, Read, Write};
use stream_pumps::{Log, Streams, serve_rounds, serve_stream};

/// Serves one stream as a control plane, and prints the last acknowledged number. Returns the status.
pub fn run_control<F: Source + Sockets, W: Write, E: Write>(
    alloc: Global,
    words: &ControlWords,
    system: &F,
    out: &mut W,
    errors: &mut E,
) -> u8
    requires { AreWhole words.now.snapshots }
    ensures { EndsControl (F.holds system.now) (F.lacks system.now)
        (F.connects system.now) (F.accepts system.now) (W.contents out.old) (W.contents out.new)
        (E.contents errors.old) (E.contents errors.new) result words.now }
{
    match acknowledged_by(alloc, words, system) {
        Ok(acknowledged) => match acknowledged_text(alloc, acknowledged) {
            Ok(text) => show(text.as_bytes(), 0, out, errors),
            Err(AllocError) => end_by_memory(out, errors),
        },
        Err(fault) => end_by(alloc, &fault, &Notes::new(alloc), out, errors),
    }
}

// Serves the stream of the first client to its end. Returns the number of the last acknowledged snapshot.
fn acknowledged_by<F: Source + Sockets>(
    alloc: Global,
    words: &ControlWords,
    system: &F,
) -> Result<Option<u64>, JobFault>
    requires { AreWhole words.now.snapshots }
    ensures found { IfOk result (IsServed (F.holds system.now) (F.lacks system.now)
        (F.connects system.now) (F.accepts system.now) words.now) }
    ensures fault { IfErr result (MemoryOrStop (StopsControl (F.holds system.now) (F.lacks system.now) words.now)) }
{
    let snapshots = snapshots_of(alloc, system, &words.snapshots)?;
    let mut log = log_of(alloc, system, &words.log)?;
    let listener = listen(alloc, system, words.listen.as_str())?;
    let mut control = Control::new(alloc, snapshots);
    serve_first(alloc, &mut control, &listener, words.grpc, &mut log);
    Ok(control.acknowledged())
}

// The log that goes to the file at this path; if no path is given, nothing is logged.
fn log_of<F: Source>(
    alloc: Global,
    files: &F,
    path: &Option<String>,
) -> Result<Log<F::Log>, JobFault>
    ensures fault { IfErr result (MemoryOrStop (CannotLog (option_map string_bytes path.now))) }
{
    let Some(path) = path else {
        return Ok(Log::new(alloc, None));
    };
    match files.open_log(path.as_str()) {
        Ok(writer) => Ok(Log::new(alloc, Some(writer))),
        Err(cause) => Err(JobFault::Log(String::from_str(alloc, path.as_str())?, cause)),
    }
}

// Listens at this address.
fn listen<N: Sockets>(alloc: Global, sockets: &N, address: &str) -> Result<N::Listener, JobFault>
    ensures found { IfOk result (λ listener. (link : Option Link)
        → N.Listener.accepts listener link → N.accepts sockets.now address.now link) }
    ensures fault { IfErr result (MemoryOrStop (CannotListen address.now)) }
{
    match sockets.listen(address) {
        Ok(listener) => Ok(listener),
        Err(cause) => Err(JobFault::Listen(String::from_str(alloc, address)?, cause)),
    }
}

// Serves the first stream that is accepted to its end, or the call of gRPC on it.
fn serve_first<N: Listen, L: Write + Drop>(
    alloc: Global,
    control: &mut Control,
    listener: &N,
    grpc: bool,
    log: &mut Log<L>,
)
    ensures { ServesOneStream (streams_of grpc (N.accepts listener.now))
        (control_view control.old) (control_view control.new) }
{
    let accepted = listener.next_stream();
    if grpc {
        return serve_call(alloc, control, accepted, log);
    }
    serve_accepted(control, accepted, log);
}

// Serves the call of gRPC on the stream to its end, if one was accepted and there is memory for it.
fn serve_call<R: Read + Drop, W: Write + Drop, L: Write + Drop>(
    alloc: Global,
    control: &mut Control,
    accepted: io::Result<(R, W)>,
    log: &mut Log<L>,
)
    ensures { ServesOneStream (λ _. ⊤) (control_view control.old) (control_view control.new) }
{
    let Ok((reader, writer)) = accepted else {
        return;
    };
    let Ok((mut reader, mut writer)) = call_on(alloc, reader, writer) else {
        return;
    };
    serve_stream(control, &mut reader, &mut writer, log);
    reader.end();
}

// Serves the stream to its end, if one was accepted.
fn serve_accepted<R: Read + Drop, W: Write + Drop, L: Write + Drop>(
    control: &mut Control,
    accepted: io::Result<(R, W)>,
    log: &mut Log<L>,
)
    ensures served { IfOk accepted (λ ends. (input_new out_new : Option (List ℕ))
        × ServesStream (control_view control.old) (control_view control.new) (R.remaining ends.0) input_new
        (W.contents ends.1) out_new) }
    ensures none { OnErr accepted (control_view control.new ≡ control_view control.old) }
{
    if let Ok((mut reader, mut writer)) = accepted {
        serve_stream(control, &mut reader, &mut writer, log);
    }
}

// The line that is printed after a stream ended.
fn acknowledged_text(alloc: Global, acknowledged: Option<u64>) -> Result<String, AllocError>
    ensures { IfOk result (λ text. string_bytes text ≡ acknowledged_line acknowledged) }
{
    match acknowledged {
        Some(number) => format!(in alloc; "acknowledged {number}\n"),
        None => String::from_str(alloc, "acknowledged none\n"),
    }
}

/// Runs the rounds of a proxy, and returns the status.
pub fn run_proxy<F: Source + Sockets, W: Write, E: Write>(
    alloc: Global,
    words: ProxyWords,
    system: &F,
    out: &mut W,
    errors: &mut E,
) -> u8
    ensures { EndsProxy (F.holds system.now) (F.lacks system.now)
        (F.connects system.now) (F.accepts system.now) (W.contents out.old) (W.contents out.new)
        (E.contents errors.old) (E.contents errors.new) result words }
{
    let mut notes = Notes::new(alloc);
    match run_rounds(alloc, words, system, &mut notes) {
        Ok(()) => 0,
        Err(fault) => end_by(alloc, &fault, &notes, out, errors),
    }
}

// Runs the rounds of a proxy with this configuration and these addresses.
fn run_rounds<F: Source + Sockets>(
    alloc: Global,
    words: ProxyWords,
    system: &F,
    notes: &mut Notes,
) -> Result<(), JobFault>
    ensures found { OnOk result (IsProxied (F.holds system.now) (F.lacks system.now)
        (F.connects system.now) (F.accepts system.now) words) }
    ensures fault { IfErr result (MemoryOrStop (StopsProxy (F.holds system.now) (F.lacks system.now) words)) }
{
    let config = config_file(alloc, system, words.config.as_str(), notes)?;
    let conn = fitting_conn(alloc, words.facts, config.limits(), system, notes)?;
    let mut log = log_of(alloc, system, &words.log)?;
    let listener = listen(alloc, system, words.listen.as_str())?;
    let mut proxy = Proxy::new(alloc, config)?;
    let streams = SocketStreams {
        sockets: system,
        control: words.control.as_str(),
        listener,
    };
    serve_rounds(&mut proxy, &conn, &streams, words.rounds, &mut log);
    Ok(())
}

// The connection with the facts of the facts file, or a plain one if no file is named. Its facts are within the
// limits.
fn fitting_conn<F: Source>(
    alloc: Global,
    facts: Option<String>,
    limits: &Limits,
    files: &F,
    notes: &mut Notes,
) -> Result<Conn, JobFault>
    ensures found { IfOk result (λ conn. IsConnOf (F.holds files.now) (F.lacks files.now)
        (option_map string_bytes facts) (conn_view conn) × FactsInLimits (conn_view conn) limits.now) }
    ensures fault { IfErr result (MemoryOrStop (LacksFit (F.holds files.now) (F.lacks files.now)
        (option_map string_bytes facts) limits.now)) }
{
    let conn = conn_of(alloc, facts, files, notes)?;
    if limits.fits_conn(&conn) {
        return Ok(conn);
    }
    notes.facts = String::from_str(
        alloc,
        "a text is longer than the configuration's limit text",
    )?;
    Err(JobFault::Facts)
}

// The source of a proxy's streams: sockets.
#[derive(Drop)]
struct SocketStreams<'a, N: Sockets> {
    sockets: &'a N,
    // The address of the control plane.
    control: &'a str,
    listener: N::Listener,
}

impl<'a, N: Sockets> Streams for SocketStreams<'a, N> {
    ghost connects = { λ s. N.connects s.sockets.now s.control.now };

    ghost accepts = { λ s. N.Listener.accepts s.listener };

    type Reader = N::Stream;

    type Writer = N::Stream;

    fn connect(&self) -> io::Result<(N::Stream, N::Stream)> {
        self.sockets.connect(self.control)
    }

    fn accept(&self) -> io::Result<(N::Stream, N::Stream)> {
        self.listener.next_stream()
    }
}
