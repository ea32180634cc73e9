//! Laws of the lines of a record. Each is a function without parameters whose contract is the law.
ghost use Rattle.std.specs.Prelude.{◌≡◌, ◌↔◌, ℕ, List, [], Option, Some, None, map};
ghost use Rattle.std.specs.List.{AllByRecursion};
ghost use Rattle.ads.specs.Config.{ConfigValue};
ghost use Rattle.proxy_core.specs.Events.{EventValue};
ghost use Rattle.proxy_core.specs.Step.{EventCall, event_of};
ghost use Rattle.program_texts.specs.InputLines.{AreLines};
ghost use Rattle.serve_log.specs.Lines.{IsRecordable, event_line, file_of};
ghost use Rattle.proxy_replay.specs.Records.{AnswersEvents};
ghost use Rattle.proxy_replay.specs.Replays.{AreCallsOf, IsLineText, IsReplayed};

/// A line is the text of one event at most.
pub fn line_event_unique()
    ensures { (line : List ℕ) (a b : EventValue) → IsLineText line a → IsLineText line b → a ≡ b }
{}

/// The line that a record has for an event is read as the event.
pub fn a_recorded_line_reads_back()
    ensures { (event : EventValue) → IsRecordable event → IsLineText (event_line event) event }
{}

/// A file of the lines of events is read as these lines, and a replay's calls of them are those of the events, in order.
pub fn a_recorded_file_reads_back()
    ensures lines { (events : List EventValue) → AllByRecursion IsRecordable events
        → AreLines (file_of events) (map event_line events) [] }
    ensures events { (events : List EventValue) (calls : List EventCall) → AllByRecursion IsRecordable events
        → AreCallsOf None (map event_line events) calls ↔ (map event_of calls ≡ events) }
{}

/// A replay of a file of the lines of events that ends without a fault is a run of the core on these events.
pub fn a_replay_of_a_record_takes_its_events()
    ensures { (config : ConfigValue) (events : List EventValue) (out input_new out_new : Option (List ℕ))
        → AllByRecursion IsRecordable events → IsReplayed config None (Some (file_of events)) out input_new out_new
        → AnswersEvents config events out out_new }
{}
