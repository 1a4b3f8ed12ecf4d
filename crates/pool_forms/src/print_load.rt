ghost use Rattle.std.specs.Prelude.{◌≡◌, ◌++◌, ◌^◌, ◌<◌, length, sum_by, IfOk, OnOk, string_bytes};
ghost use Rattle.std.specs.List.{count_by};
ghost use Rattle.pool_forms.specs.LoadOutput.{is_of, count_of, counts_text, load_head, load_line, load_text};

use crate::print::{push_metrics, push_named, push_pages};
use pool_run::{Reply, ReplyList, RunOutput};
use std::alloc::{AllocError, Global};
use std::fmt::Write;

/// What a reply is counted as.
#[derive(Clone, Copy, Debug, PartialEq, Eq)]
pub enum ReplyKind {
    /// Something was granted, of whatever sort.
    Granted,
    Done,
    /// A growth, or that there was none.
    Grown,
    Bytes,
    Returned,
    Refused,
    Trapped,
}

fn is_of(kind: ReplyKind, reply: &Reply) -> bool
    ensures { result ≡ is_of kind reply.now }
{
    match kind {
        ReplyKind::Granted => matches!(
            reply,
            Reply::Instance { .. } | Reply::Component | Reply::Stack(_) | Reply::Heap { .. }
        ),
        ReplyKind::Done => matches!(reply, Reply::Done),
        ReplyKind::Grown => matches!(reply, Reply::Grown(_)),
        ReplyKind::Bytes => matches!(reply, Reply::Bytes(_)),
        ReplyKind::Returned => matches!(reply, Reply::Returned),
        ReplyKind::Refused => matches!(reply, Reply::Refused(_)),
        ReplyKind::Trapped => matches!(reply, Reply::Trap(_)),
    }
}

/// How many of the replies are of this kind.
fn count_in(kind: ReplyKind, replies: &[Reply]) -> usize
    ensures { result ≡ count_by (is_of kind) replies.now }
{
    replies.iter().filter(|reply| is_of(kind, *reply)).count()
}

/// How many of the replies to all parties are of this kind.
fn count_of(kind: ReplyKind, parties: &[ReplyList]) -> u64
    requires few { sum_by length parties.now < 2 ^ 64 }
    ensures { result ≡ count_of kind parties.now }
{
    let mut count = 0;
    for replies in parties {
        count += count_in(kind, replies.as_slice()) as u64;
    }
    count
}

#[tactic(auto, unfolding(crate::specs::LoadOutput::counts_text))]
fn push_counts(out: &mut String, parties: &[ReplyList]) -> Result<(), AllocError>
    requires few { sum_by length parties.now < 2 ^ 64 }
    ensures { OnOk result (string_bytes out.new ≡ string_bytes out.old ++ counts_text parties.now) }
{
    push_named(out, " granted=", count_of(ReplyKind::Granted, parties))?;
    push_named(out, " done=", count_of(ReplyKind::Done, parties))?;
    push_named(out, " grown=", count_of(ReplyKind::Grown, parties))?;
    push_named(out, " bytes=", count_of(ReplyKind::Bytes, parties))?;
    push_named(out, " returned=", count_of(ReplyKind::Returned, parties))?;
    push_named(out, " refused=", count_of(ReplyKind::Refused, parties))?;
    push_named(out, " trapped=", count_of(ReplyKind::Trapped, parties))?;
    Ok(())
}

#[tactic(auto, unfolding(crate::specs::LoadOutput::load_head))]
fn push_head(out: &mut String, seed: u64) -> Result<(), AllocError>
    ensures { OnOk result (string_bytes out.new ≡ string_bytes out.old ++ load_head seed) }
{
    write!(out, "load {seed}: parties=8 commands=2000")
}

fn push_load(out: &mut String, seed: u64, parties: &[ReplyList]) -> Result<(), AllocError>
    requires few { sum_by length parties.now < 2 ^ 64 }
    ensures { OnOk result (string_bytes out.new ≡ string_bytes out.old ++ load_line seed parties.now) }
{
    push_head(out, seed)?;
    push_counts(out, parties)?;
    out.push_str("\n")
}

/// The text of the output of a run of the load of this seed: how many replies of each kind there are, in place of the
/// replies.
pub fn load_text(alloc: Global, seed: u64, output: &RunOutput) -> Result<String, AllocError>
    requires few { sum_by length output.now.replies < 2 ^ 64 }
    ensures { IfOk result (λ text. string_bytes text ≡ load_text seed output.now) }
{
    let mut out = String::new(alloc);
    push_load(&mut out, seed, output.replies.as_slice())?;
    push_metrics(&mut out, &output.metrics)?;
    push_pages(&mut out, &output.calls)?;
    Ok(out)
}
