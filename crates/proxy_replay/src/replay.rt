//! A replay: reads events from lines, and prints the core's answer to each.
ghost use Rattle.std.specs.Prelude.{◌≡◌, ◌≢◌, ◌⊎◌, List, ℕ, Ok, Some, None, IfErr, IfOk, OnErr, OnOk, IsUtf8, option_map, string_bytes};
ghost use Rattle.std.specs.Io.KnownBytes.{IsAtEnd, Keeps};
ghost use Rattle.std.specs.IoError.{error_kind};
ghost use Rattle.proxy_core.specs.Events.{EventValue};
ghost use Rattle.proxy_core.specs.Proxies.{proxy_view};
ghost use Rattle.proxy_replay.specs.Lines.{line_view};
ghost use Rattle.proxy_replay.specs.Replays.{IsLineText, IsReplayed, IsStopped};
ghost use Rattle.proxy_replay.specs.private.Replaying.{Answers, IsSomeLine, PrintsAnswer, TurnStops};
ghost use Rattle.program_texts.specs.InputLines.{IsReadingFault};
ghost use Rattle.program_texts.specs.declared.line_fault.LineFault.TheVariants.{BadLine};
ghost use Rattle.program_texts.specs.declared.replay_fault.ReplayFault.TheVariants.{Memory};

use crate::lines::{LineEvent, cause_of_bad_line, line_event, line_text};
use ads::Config;
use program_texts::{LineFault, ReplayFault, input_fault, write_whole};
use proxy_core::Proxy;
use std::alloc::{AllocError, Global};
use std::io::{self, BufRead, ErrorKind, Write};

// A proxy, and the connection that alone is replayed, if one is named.
#[derive(Drop)]
struct Core {
    proxy: Proxy,
    only: Option<u64>,
}

/// Passes a proxy with this configuration the event of each line of the input, in order, and prints a line for each.
/// That is its output in four words, or `memory` if memory ran out; the proxy is then as before the event. The replay
/// ends at the end of the input, or at a line that is no event. If a connection is named, only the events of the update
/// stream and its own are passed on, its own as those of connection 0. Nothing is printed for others.
pub fn replay<R: BufRead, W: Write>(
    alloc: Global,
    config: Config,
    only: Option<u64>,
    input: &mut R,
    out: &mut W,
) -> Result<(), ReplayFault>
    ensures replayed { OnOk result (IsReplayed config only (R.remaining input.old) (W.contents out.old)
        (R.remaining input.new) (W.contents out.new)) }
    ensures stopped { IfErr result (λ fault. IsStopped config only (R.remaining input.old) (W.contents out.old) fault
        (R.remaining input.new) (W.contents out.new)) }
{
    let proxy = Proxy::new(alloc, config)?;
    let mut core = Core { proxy, only };
    for number in 1..u64::MAX {
        match read_line(alloc, input)? {
            Some(line) => answer_line(alloc, &mut core, &line, number, out)?,
            None => return Ok(()),
        }
    }
    Err(ReplayFault::Input(io::Error::from(ErrorKind::TimedOut)))
}

// The next line of the input, with its line feed, if there is one.
fn read_line<R: BufRead>(alloc: Global, input: &mut R) -> Result<Option<Vec<u8>>, ReplayFault>
    ensures found { IfOk result (λ found.
        IsSomeLine (option_map (λ v. v.items) found) (R.remaining input.old) (R.remaining input.new)) }
    ensures fault { IfErr result (λ e. IsReadingFault e) }
{
    let mut line = Vec::new(alloc);
    match input.read_until(b'\n', &mut line) {
        Ok(0) => Ok(None),
        Ok(_) => Ok(Some(line)),
        Err(cause) => Err(input_fault(cause)),
    }
}

// Prints the answer to the event of this line.
fn answer_line<W: Write>(
    alloc: Global,
    core: &mut Core,
    line: &[u8],
    number: u64,
    out: &mut W,
) -> Result<(), ReplayFault>
    ensures only { core.new.only ≡ core.old.only }
    ensures answered { OnOk result (PrintsAnswer core.old.only (proxy_view core.old.proxy) line.now (W.contents out.old)
        (proxy_view core.new.proxy) (W.contents out.new)) }
    ensures fault { IfErr result (TurnStops core.old.only (proxy_view core.old.proxy) number line.now
        (W.contents out.old) (W.contents out.new)) }
{
    match answer(alloc, core, line) {
        Ok(text) => match write_whole(out, text.as_bytes()) {
            Ok(()) => Ok(()),
            Err(cause) => Err(ReplayFault::Output(cause)),
        },
        Err(LineFault::BadLine) => Err(ReplayFault::Line(number, cause_of_bad_line(alloc, line)?)),
        Err(LineFault::Memory) => Err(ReplayFault::Memory),
    }
}

// The line that answers the event of this line. It is empty if the event is not seen.
fn answer(alloc: Global, core: &mut Core, line: &[u8]) -> Result<String, LineFault>
    ensures only { core.new.only ≡ core.old.only }
    ensures found { IfOk result (λ text. Answers core.old.only (proxy_view core.old.proxy) line.now (string_bytes text)
        (proxy_view core.new.proxy)) }
    ensures fault { IfErr result (λ e. e ≡ BadLine → (event : EventValue) → ¬ IsLineText line.now event) }
{
    let event = event_of(alloc, line)?;
    let Some(event) = event.seen_by(core.only) else {
        return Ok(String::new(alloc));
    };
    match core.proxy.step(event.event()) {
        Ok(output) => {
            let mut text = line_text(alloc, &output)?;
            text.push('\n')?;
            Ok(text)
        }
        Err(AllocError) => Ok(String::from_str(alloc, "memory\n")?),
    }
}

// The event of a line's bytes.
fn event_of(alloc: Global, line: &[u8]) -> Result<LineEvent, LineFault>
    ensures found { IfOk result (λ event. IsLineText line.now (line_view event)) }
    ensures fault { IfErr result (λ e. e ≡ BadLine → (event : EventValue) → ¬ IsLineText line.now event) }
{
    match str::from_utf8(line) {
        Ok(text) => line_event(alloc, text),
        Err(_) => Err(LineFault::BadLine),
    }
}
