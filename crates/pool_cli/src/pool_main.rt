ghost use Rattle.std.specs.Prelude.{◌≡◌, ◌⊎◌, ℕ, true, IfSome};
ghost use Rattle.pool_types.specs.Rising.{Rose};
ghost use Rattle.pool_cli.specs.Lines.{line_of};
ghost use Rattle.pool_cli.specs.Statuses.{FollowsBytes, HasFaulted, HasReadInvalid, IsLoadStatus, Unread, WroteBadConfig, WroteLess, WroteOutput, reads_input, run_format, runs, shared_format};
ghost use Rattle.pool_cli.specs.Stages.{Ends};
ghost use Rattle.pool_cli.specs.declared.failure.Failure.TheVariants as failure;
ghost use Rattle.pool_forms.specs.Streams.{ReadTooMuch, Wrote};
ghost use Rattle.pool_cli.specs.Words.{task_of};
ghost use Rattle.pool_cli.specs.declared.words.Task.TheVariants.{Run, RunOnDemand, Threads, Shared, Load, Unknown};

use crate::stages::{finish, prepare};
use crate::status::Status;
use pool_forms::{Sink, Source};
use pool_pages::PageMaker;
use std::alloc::Global;
use std::sync::Wait;
use std::thread::Threads;

fn go<S: Source, K: Sink, M: PageMaker + Send, R: Threads + Wait + Sync>(
    rt: &R,
    alloc: Global,
    words: &[String],
    source: &mut S,
    sink: &mut K,
    pages: &mut M,
) -> Status
where
    M::Region: Send,
    ensures { Ends M.Region.told (task_of words.now) result (S.told source.old) (S.told source.new) (K.told sink.old) (K.told sink.new) (M.told pages.old) (M.told pages.new) }
{
    match prepare(rt, alloc, words, source, pages) {
        Ok(text) => finish(sink, text.as_str(), Status::Ok),
        Err(failure) => finish(sink, failure.line(), failure.status()),
    }
}

/// Does all that the program does, and says how it ended.
///
/// The whole output is made before the first write. Where a write of a line fails, `WriteFault` stands in place of
/// the status that the line is of.
///
/// With the word `threads` it may wait, and the clauses hold if it returns. The stages of the other words don't take `rt`, so they return.
pub fn pool_main<S: Source, K: Sink, M: PageMaker + Send, R: Threads + Wait + Sync>(
    rt: &R,
    alloc: Global,
    words: &[String],
    source: &mut S,
    sink: &mut K,
    pages: &mut M,
) -> Status
where
    M::Region: Send,
    // The source was read to its end, the bytes read are an input that can be run, and the bytes written are the text of the output of a run of it. Of a load nothing is read, and its input is made.
    ensures ok { result ≡ Status.Ok → WroteOutput M.Region (task_of words.now) (S.told source.old) (S.told source.new) (K.told sink.old) (K.told sink.new) (M.told pages.old) (M.told pages.new) }
    ensures bad_usage { result ≡ Status.BadUsage → (task_of words.now ≡ Unknown) × Unread (S.told source.old) (S.told source.new) × Wrote (line_of failure.BadUsage) (K.told sink.old) (K.told sink.new) }
    ensures bad_input { result ≡ Status.BadInput → HasReadInvalid (task_of words.now) (S.told source.old) (S.told source.new) × Wrote (line_of failure.BadInput) (K.told sink.old) (K.told sink.new) }
    // The source was read to its end, the bytes read are an input that can be run but for its settings, and the line written says which of their rules is the first that is broken.
    ensures bad_config { result ≡ Status.BadConfig → WroteBadConfig (task_of words.now) (S.told source.old) (S.told source.new) (K.told sink.old) (K.told sink.new) }
    ensures page_fault { result ≡ Status.PageFault → HasFaulted M.Region.told (task_of words.now) (S.told source.old) (S.told source.new) (M.told pages.old) (M.told pages.new) × Wrote (line_of failure.PageFault) (K.told sink.old) (K.told sink.new) }
    ensures read_fault { result ≡ Status.ReadFault → (reads_input (task_of words.now) ≡ true) × Rose (S.told source.old).faults (S.told source.new).faults × Wrote (line_of failure.ReadFault) (K.told sink.old) (K.told sink.new) }
    ensures write_fault { result ≡ Status.WriteFault → WroteLess M.Region.told (task_of words.now) (S.told source.old) (S.told source.new) (K.told sink.old) (K.told sink.new) (M.told pages.old) (M.told pages.new) }
    ensures no_memory { result ≡ Status.NoMemory → (runs (task_of words.now) ≡ true) × Wrote (line_of failure.NoMemory) (K.told sink.old) (K.told sink.new) }
    ensures too_long { result ≡ Status.TooLong → (reads_input (task_of words.now) ≡ true) × ReadTooMuch (S.told source.old) (S.told source.new) × Wrote (line_of failure.TooLong) (K.told sink.old) (K.told sink.new) }
    // The other way round: what the words and the bytes lead to, unless something stands in the way. A fault of the source or
    // of the sink is one of theirs by the clauses above, and one of a making is listed by the input or counted by the maker; so
    // without any the status is this one, or that of want of memory.
    ensures unknown_words { task_of words.now ≡ Unknown → (result ≡ Status.BadUsage) ⊎ (result ≡ Status.WriteFault) }
    ensures load_words { (seed : ℕ) → task_of words.now ≡ Load seed → IsLoadStatus result }
    ensures by_bytes { task_of words.now ≡ Run → IfSome (S.told source.old).rest (FollowsBytes run_format result) }
    ensures by_bytes_on_demand { task_of words.now ≡ RunOnDemand → IfSome (S.told source.old).rest (FollowsBytes run_format result) }
    ensures by_bytes_on_threads { task_of words.now ≡ Threads → IfSome (S.told source.old).rest (FollowsBytes run_format result) }
    ensures by_shared_bytes { task_of words.now ≡ Shared → IfSome (S.told source.old).rest (FollowsBytes shared_format result) }
{
    go(rt, alloc, words, source, sink, pages)
}
