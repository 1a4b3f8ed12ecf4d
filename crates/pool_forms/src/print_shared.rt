ghost use Rattle.std.specs.Prelude.{◌≡◌, ◌++◌, codes, IfOk, OnOk, string_bytes};
ghost use Rattle.pool_forms.specs.SharedOutput.{wait_text, shared_reply_text, event_line, event_lines, shared_text};

use crate::print::{push_bytes, push_grown, push_trap};
use pool_run_shared::SharedReply;
use pool_shared::WaitStep;
use std::alloc::{AllocError, Global};
use std::fmt::Write;

fn wait_text(step: WaitStep) -> &'static str
    ensures { result.now ≡ wait_text step }
{
    match step {
        WaitStep::Ok => "ok",
        WaitStep::Mismatch => "mismatch",
        WaitStep::TimedOut => "timed-out",
        WaitStep::Parked => "parked",
    }
}

fn push_reply(alloc: Global, out: &mut String, reply: &SharedReply) -> Result<(), AllocError>
    ensures { OnOk result (string_bytes out.new ≡ string_bytes out.old ++ shared_reply_text reply.now) }
{
    match reply {
        SharedReply::Wait(step) => out.push_str(wait_text(*step)),
        SharedReply::WaiterBusy => out.push_str("refused WaiterBusy"),
        SharedReply::WaiterIdle => out.push_str("refused WaiterIdle"),
        SharedReply::Notified(n) => write!(out, "notified {n}"),
        SharedReply::Bytes(bytes) => {
            out.push_str("bytes ")?;
            push_bytes(alloc, out, bytes.as_slice())
        }
        SharedReply::Done => out.push_str("done"),
        SharedReply::Grown(old) => push_grown(out, *old),
        SharedReply::Size(size) => write!(out, "size {size}"),
        SharedReply::Trap(trap) => {
            out.push_str("trap ")?;
            push_trap(out, *trap)
        }
    }
}

fn push_line(
    alloc: Global,
    out: &mut String,
    event: usize,
    reply: &SharedReply,
) -> Result<(), AllocError>
    ensures { OnOk result (string_bytes out.new ≡ string_bytes out.old ++ event_line event reply.now) }
{
    write!(out, "{event}: ")?;
    push_reply(alloc, out, reply)?;
    out.push_str("\n")
}

fn push_lines(alloc: Global, out: &mut String, replies: &[SharedReply]) -> Result<(), AllocError>
    ensures { OnOk result (string_bytes out.new ≡ string_bytes out.old ++ event_lines 0 replies.now) }
{
    for (event, reply) in replies.iter().enumerate() {
        push_line(alloc, out, event, reply)?;
    }
    Ok(())
}

/// The text of the replies to events on a shared memory.
pub fn shared_text(alloc: Global, replies: &[SharedReply]) -> Result<String, AllocError>
    ensures { IfOk result (λ text. string_bytes text ≡ shared_text replies.now) }
{
    let mut out = String::new(alloc);
    push_lines(alloc, &mut out, replies)?;
    Ok(out)
}
