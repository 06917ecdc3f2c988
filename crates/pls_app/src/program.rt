//! The one call that does all that the program does.

ghost use Rattle.std.specs.Prelude.{◌≡◌, ◌⊎◌, ◌++◌, [], ℕ, List, Some, IsOk, OnErr, OnOk, length};
ghost use Rattle.std.specs.Io.KnownBytes.{Appends};
ghost use Rattle.pls_streams.specs.Gathered.{Writes};
ghost use Rattle.pls_streams.specs.Streams.{AppendsPart, Rose};
ghost use Rattle.pls_inputs.specs.Parts.{net_labels_text};
ghost use Rattle.pls_words.specs.Words.{words_in};
ghost use Rattle.pls_expressions.specs.Expression.{Expression};
ghost use Rattle.pls_app.specs.Command.{Checks, IsUsage};
ghost use Rattle.pls_app.specs.Run.{Asks, Certifies, Concerns, Consumes, Converts, CountsAsked, EndsAs, HasItsCause, HoldsAfter, IsAnswered, IsJudged, IsSureOfAnswer, IsUnread, Lacks, Notices, Proves, ProvesByRules, RefusesExactly, SomeRejects, Splits, TellsAnswer, TellsPart, Took};
ghost use Rattle.pls_app.specs.inner.Causes.{WritesOrFails};
ghost use Rattle.pls_app.specs.Answer.{IsRefused};
ghost use Rattle.pls_app.specs.Reports.{reports_text};
ghost use Rattle.pls_streams.specs.declared.text_error.TextError.{TextError};
ghost use Rattle.pls_app.specs.inner.Written.{text_in};

use crate::answer::{Answer, Content, usage_answer};
use crate::command::{Command, ReportForm, RuleTask, Task, read_command};
use crate::from_source::answer_from;
use crate::round_report::RoundReport;
use pls_bits::CodeName;
use pls_graph::Network;
use pls_labelfile::stream_labels;
use pls_labels::LabelStore;
use pls_recheck::Bench;
use pls_report::{write_kept, write_report, write_round};
use pls_streams::{Fault, NoMemory, Sink, Source, Status, write_all};
use std::alloc::Global;

/// Runs the program: `words` are the words after its name, `source` gives its input, and `sink`
/// takes its text. `bench` answers for the nodes that `recheck` judges. The answer is the status
/// with which the process ends.
///
/// What the text says is known before its first byte is written, and writing takes no memory.
pub fn run<'w, S: Source, K: Sink, B: Bench>(
    alloc: Global,
    words: &'w [&'w str],
    source: &mut S,
    sink: &mut K,
    bench: &mut B,
) -> Status
    // What `Done` and `No` say of the network.
    ensures check { (scheme : Expression) (command : Command) (bytes : List ℕ)
        → Asks (words_in words.now) (S.left source.old) command bytes → Checks scheme command
        → result ≡ Status.Done → Proves scheme bytes }
    ensures rejects { (scheme : Expression) (command : Command) (bytes : List ℕ)
        → Asks (words_in words.now) (S.left source.old) command bytes → Checks scheme command
        → result ≡ Status.No → SomeRejects command bytes }
    ensures notices { (scheme : Expression) (command : Command) (bytes : List ℕ)
        → Asks (words_in words.now) (S.left source.old) command bytes → Checks scheme command
        → IsJudged result → Notices scheme command bytes }
    ensures mark { (code : CodeName) (scheme : Expression) (bytes : List ℕ)
        → Asks (words_in words.now) (S.left source.old) (Command.With (Task.Mark code) scheme) bytes
        → result ≡ Status.Done
        → Took (Certifies code scheme bytes) (K.taken sink.old) (K.taken sink.new) }
    ensures mark_no { (code : CodeName) (scheme : Expression) (bytes : List ℕ)
        → Asks (words_in words.now) (S.left source.old) (Command.With (Task.Mark code) scheme) bytes
        → result ≡ Status.No
        → Took (Lacks scheme bytes) (K.taken sink.old) (K.taken sink.new) }
    ensures recheck { (scheme : Expression) (bytes : List ℕ)
        → Asks (words_in words.now) (S.left source.old) (Command.With Task.Recheck scheme) bytes
        → result ≡ Status.Done → HoldsAfter scheme bytes }
    ensures watch { (scheme : Expression) (bytes : List ℕ)
        → Asks (words_in words.now) (S.left source.old) (Command.With Task.Watch scheme) bytes
        → result ≡ Status.Done → Proves scheme bytes }
    ensures convert { (scheme : Expression) (bytes : List ℕ)
        → Asks (words_in words.now) (S.left source.old) (Command.With Task.Convert scheme) bytes
        → result ≡ Status.Done
        → Took (Converts scheme bytes) (K.taken sink.old) (K.taken sink.new) }
    ensures splice { (scheme : Expression) (bytes : List ℕ)
        → Asks (words_in words.now) (S.left source.old) (Command.With Task.Splice scheme) bytes
        → result ≡ Status.Done
        → Took (Splits scheme bytes) (K.taken sink.old) (K.taken sink.new) }
    ensures judge { (form : ReportForm) (bytes : List ℕ)
        → Asks (words_in words.now) (S.left source.old)
        (Command.ByRules (RuleTask.Judge form)) bytes
        → result ≡ Status.Done → ProvesByRules bytes }

    // How often the bench was asked.
    ensures asked { CountsAsked (words_in words.now) (S.left source.old) result
        (B.asked bench.old) (B.asked bench.new) }

    // The status and the text are those of the answer to the words and the bytes. It comes, or want
    // of memory, where no call on the source failed, and none on the sink did or could. Bytes that
    // nothing refuses are answered with `Done` or `No`, and `Usage` comes only with words that
    // are no command.
    ensures text { (bytes : List ℕ) → Concerns (words_in words.now) (S.left source.old) bytes
        → IsAnswered result
        → TellsAnswer (words_in words.now) bytes result (K.taken sink.old) (K.taken sink.new) }
    ensures answers { (Rose (S.faults source.old) (S.faults source.new) → ⊥)
        → (Rose (K.faults sink.old) (K.faults sink.new) → ⊥)
        ⊎ IsSureOfAnswer (words_in words.now) (S.left source.old) (K.IsSureOf sink.old)
        → (result ≡ Status.NoMemory) ⊎ IsAnswered result }
    ensures refused { (command : Command) (bytes : List ℕ)
        → Asks (words_in words.now) (S.left source.old) command bytes → IsAnswered result
        → RefusesExactly command bytes result (K.taken sink.old) (K.taken sink.new) }
    ensures completes { (command : Command) (bytes : List ℕ)
        → Asks (words_in words.now) (S.left source.old) command bytes
        → ((error : TextError) → IsRefused command bytes error → ⊥) → IsAnswered result
        → IsJudged result }
    ensures usage { result ≡ Status.Usage → IsUsage (words_in words.now) }

    // A run without an answer has its cause, and what was written then is known.
    ensures cause { HasItsCause result (S.faults source.old) (S.faults source.new)
        (K.faults sink.old) (K.faults sink.new) }
    ensures silent { (result ≡ Status.ReadFault) ⊎ (result ≡ Status.NoMemory)
        → sink.new ≡ sink.old }
    ensures part { (bytes : List ℕ) → Concerns (words_in words.now) (S.left source.old) bytes
        → result ≡ Status.WriteFault
        → TellsPart (words_in words.now) bytes (K.taken sink.old) (K.taken sink.new) }

    // What the source has lost: nothing where the words ask for no input.
    ensures ends { (due : Status) → IsUnread (words_in words.now) due → EndsAs due result }
    ensures unread { (due : Status) → IsUnread (words_in words.now) due
        → source.new ≡ source.old }
    ensures read { Consumes (words_in words.now) result (S.left source.old) (S.left source.new) }
{
    match read_command(alloc, words) {
        Err(NoMemory) => Status::NoMemory,
        Ok(None) => tell(sink, usage_answer()),
        Ok(Some(command)) => match answer_from(alloc, command, source, bench) {
            Ok(answer) => tell(sink, answer),
            Err(status) => status,
        },
    }
}

// The status of the answer, or `WriteFault` where a write failed.
fn tell<K: Sink>(sink: &mut K, answer: Answer) -> Status
    ensures told { WritesOrFails answer.status result (K.faults sink.old) (K.faults sink.new)
        (K.taken sink.old) (K.taken sink.new) answer.text }
    ensures sure { K.IsSureOf sink.old (length answer.text) → result ≡ answer.status }
{
    let Answer { status, content } = answer;
    match write_content(sink, content) {
        Ok(()) => status,
        Err(Fault) => Status::WriteFault,
    }
}

fn write_content<K: Sink>(sink: &mut K, content: Content) -> Result<(), Fault>
    ensures all { OnOk result (Appends (K.taken sink.old) (K.taken sink.new)
        (text_in content)) }
    ensures part { OnErr result (AppendsPart (K.taken sink.old) (K.taken sink.new)
        (text_in content)) }
    ensures fault { OnErr result (Rose (K.faults sink.old) (K.faults sink.new)) }
    ensures sure { K.IsSureOf sink.old (length (text_in content)) → IsOk result }
{
    match content {
        Content::Known(text) => write_all(sink, text),
        Content::Written(text) => write_all(sink, &text),
        Content::Labels { code, net, labels } => stream_labels(&net, &labels, code, sink),
        Content::Configuration {
            network_text,
            code,
            net,
            labels,
        } => write_configuration(&network_text, code, &net, &labels, sink),
        Content::Report {
            simulated,
            parts,
            rows,
        } => write_report(&rows, simulated, &parts, sink),
        Content::Rounds(reports) => write_rounds(&reports, sink),
        Content::Looks(look) => write_kept(look, sink),
    }
}

fn write_configuration<K: Sink>(
    network_text: &[u8],
    code: CodeName,
    net: &Network,
    labels: &LabelStore,
    sink: &mut K,
) -> Result<(), Fault>
    ensures { Writes [] [] (K.taken sink.old) (K.taken sink.new) (K.faults sink.old)
        (K.faults sink.new) (K.IsSureOf sink.old) (K.IsSureOf sink.new) result
        (network_text.now ++ net_labels_text code net.now labels.now) }
{
    write_all(sink, network_text)?;
    stream_labels(net, labels, code, sink)
}

fn write_rounds<K: Sink>(reports: &[RoundReport], sink: &mut K) -> Result<(), Fault>
    ensures all { OnOk result (Appends (K.taken sink.old) (K.taken sink.new)
        (reports_text reports.now)) }
    ensures part { OnErr result (AppendsPart (K.taken sink.old) (K.taken sink.new)
        (reports_text reports.now)) }
    ensures fault { OnErr result (Rose (K.faults sink.old) (K.faults sink.new)) }
    ensures sure { K.IsSureOf sink.old (length (reports_text reports.now)) → IsOk result }
{
    for report in reports {
        let RoundReport {
            number,
            checked,
            connected,
            verdicts,
        } = report;
        write_round(*number, *checked, *connected, verdicts, sink)?;
    }
    Ok(())
}
