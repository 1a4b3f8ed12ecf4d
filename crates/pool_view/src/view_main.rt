ghost use Rattle.std.specs.Prelude.{◌≡◌, ◌⊎◌, None, Some, false, true, IfSome};
ghost use Rattle.pool_types.specs.Rising.{Rose};
ghost use Rattle.pool_forms.specs.Streams.{ReadTooMuch, Wrote};
ghost use Rattle.pool_view.specs.Answers.{Ends, FollowsBytes, HasAnswered, LeftAt, WritesAnswer, is_of_input, streams, too_long_line, usage_line};
ghost use Rattle.pool_view.specs.Words.{question_of};
ghost use Rattle.pool_view.specs.declared.words.Question.{Question};

use crate::answer::answer_to;
use crate::runs::{finish, trace, write_made};
use crate::status::Status;
use crate::words::{Question, question_of};
use pool_forms::{ReadFault, Sink, Source, read_all};
use pool_view_steps::Printer;
use std::alloc::Global;

/// The line where the words are none that the program has.
const USAGE: &str =
    "usage: check | check on-demand | check shared | explain | trace | summary | chart, with the input as standard input\n";

/// The line where the input is too long.
const TOO_LONG: &str = "input: more than 67108864 bytes\n";

/// Whether the answer to the question is written as the input is run.
fn streams(question: Question) -> bool
    ensures { result ≡ streams question }
{
    matches!(question, Question::Trace)
}

/// Answers a question about the bytes of an input with a text that is made whole before it is written.
fn write_whole<K: Sink>(
    alloc: Global,
    question: Question,
    bytes: &[u8],
    printer: &mut Printer<K>,
) -> Status
    requires { streams question ≡ false }
    ensures { WritesAnswer question bytes.now (K.told printer.old.sink) (K.told printer.new.sink) result }
{
    let answer = answer_to(alloc, question, bytes);
    write_made(printer, answer)
}

/// Answers a question about the bytes of an input.
fn write_answer<K: Sink>(
    alloc: Global,
    question: Question,
    bytes: &[u8],
    printer: &mut Printer<K>,
) -> Status
    ensures { WritesAnswer question bytes.now (K.told printer.old.sink) (K.told printer.new.sink) result }
{
    if streams(question) {
        trace(alloc, bytes, printer)
    } else {
        write_whole(alloc, question, bytes, printer)
    }
}

/// Reads the input, and answers a question about it.
#[tactic(auto, using(crate::proofs::Endings::ends_with_answer, crate::proofs::Endings::ends_too_long))]
fn go<S: Source, K: Sink>(
    alloc: Global,
    question: Question,
    source: &mut S,
    printer: &mut Printer<K>,
) -> Status
    ensures { Ends (Some question) result (S.told source.old) (S.told source.new) (K.told printer.old.sink) (K.told printer.new.sink) }
{
    match read_all(alloc, source) {
        Ok(bytes) => write_answer(alloc, question, bytes.as_slice(), printer),
        Err(ReadFault::Failed) => Status::ReadFault,
        Err(ReadFault::TooLong) => finish(printer, TOO_LONG, Status::TooLong),
        Err(ReadFault::Memory) => Status::NoMemory,
    }
}

/// How the program ends for these words.
#[tactic(auto, using(crate::proofs::Endings::ends_bad_usage))]
fn end<S: Source, K: Sink>(
    alloc: Global,
    words: &[String],
    source: &mut S,
    printer: &mut Printer<K>,
) -> Status
    ensures { Ends (question_of words.now) result (S.told source.old) (S.told source.new) (K.told printer.old.sink) (K.told printer.new.sink) }
{
    match question_of(words) {
        Some(question) => go(alloc, question, source, printer),
        None => finish(printer, USAGE, Status::BadUsage),
    }
}

/// Does all that the program does, and says how it ended.
///
/// The whole answer is made before the first write, but for a trace, which is written as the input is run. Where a write fails, `WriteFault` stands in place of the status that the
/// answer has.
#[tactic(auto, using(crate::proofs::Endings::follows, crate::proofs::Endings::ends_unknown))]
pub fn view_main<S: Source, K: Sink>(
    alloc: Global,
    words: &[String],
    source: &mut S,
    printer: &mut Printer<K>,
) -> Status
    // The source was read to its end, and all of an answer about its bytes was written: for a check the line `ok` exactly where they are an input that can be run; for a trace the lines of a run of it, and for a summary its counts.
    ensures answered { is_of_input result ≡ true → HasAnswered (question_of words.now) result (S.told source.old) (S.told source.new) (K.told printer.old.sink) (K.told printer.new.sink) }
    ensures bad_usage { result ≡ Status.BadUsage → (question_of words.now ≡ None) × (S.told source.new ≡ S.told source.old) × Wrote usage_line (K.told printer.old.sink) (K.told printer.new.sink) }
    ensures read_fault { result ≡ Status.ReadFault → Rose (S.told source.old).faults (S.told source.new).faults × (K.told printer.new.sink ≡ K.told printer.old.sink) }
    ensures write_fault { result ≡ Status.WriteFault → Rose (K.told printer.old.sink).faults (K.told printer.new.sink).faults }
    ensures no_memory { result ≡ Status.NoMemory → (question : Question) × (question_of words.now ≡ Some question) × LeftAt question (K.told printer.old.sink) (K.told printer.new.sink) }
    ensures too_long { result ≡ Status.TooLong → ReadTooMuch (S.told source.old) (S.told source.new) × Wrote too_long_line (K.told printer.old.sink) (K.told printer.new.sink) }
    // The other way round: what the words and the bytes lead to, unless something stands in the way.
    ensures unknown_words { question_of words.now ≡ None → (result ≡ Status.BadUsage) ⊎ (result ≡ Status.WriteFault) }
    ensures by_bytes { IfSome (question_of words.now) (λ question. IfSome (S.told source.old).rest (λ bytes. FollowsBytes result bytes question)) }
{
    end(alloc, words, source, printer)
}
