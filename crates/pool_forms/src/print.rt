ghost use Rattle.std.specs.Prelude.{◌≡◌, ◌++◌, Some, codes, IfOk, OnOk, option_map, string_bytes};
ghost use Rattle.pool_types.specs.UnsupportedTexts.{whole_text};
ghost use Rattle.pool_forms.specs.Output.{numbers_text, bytes_text, one_line, refusal_text, no_stacks_text, alloc_error_text, denied_text, trap_text, grown_text, cont_text, element_text, pool_reply_text, reply_text, module_of, module_asked, reply_line, reply_lines, party_lines, named, named_or_none, live_text, warm_text, metrics_line, pages_line, output_text, replies_text, threads_text};

use pool_alloc::{Element, Metrics};
use pool_limits::Trap;
use pool_pages::PageCalls;
use pool_run::{Command, Input, Refusal, Reply, ReplyList, RunOutput};
use pool_slots::AllocError as Refused;
use pool_table::VMContObj;
use pool_types::{ModuleInfo, Text, Unsupported};
use std::alloc::{AllocError, Global};
use std::fmt::Write;

/// Which allocator gives the replies.
#[derive(Clone, Copy, Debug, PartialEq, Eq)]
pub enum Allocator {
    Pooling,
    OnDemand,
}

/// Adds the numbers, with commas between them, or a dash where there is none.
fn push_numbers(out: &mut String, numbers: &[u32]) -> Result<(), AllocError>
    ensures { OnOk result (string_bytes out.new ≡ string_bytes out.old ++ numbers_text numbers.now) }
{
    let Some((first, rest)) = numbers.split_first() else {
        return out.push_str("-");
    };
    write!(out, "{first}")?;
    for number in rest {
        write!(out, ",{number}")?;
    }
    Ok(())
}

/// Adds the bytes in hexadecimal, or a dash where there is none.
pub(crate) fn push_bytes(alloc: Global, out: &mut String, bytes: &[u8]) -> Result<(), AllocError>
    ensures { OnOk result (string_bytes out.new ≡ string_bytes out.old ++ bytes_text bytes.now) }
{
    if bytes.is_empty() {
        return out.push_str("-");
    }
    let text = hex::encode(alloc, bytes)?;
    out.push_str(text.as_str())
}

fn push_refusal(
    alloc: Global,
    out: &mut String,
    allocator: Allocator,
    info: Option<&ModuleInfo>,
    refusal: Refusal,
) -> Result<(), AllocError>
    ensures { OnOk result (string_bytes out.new ≡ string_bytes out.old ++ refusal_text allocator (option_map (λ i. i.now) info.entry) refusal) }
{
    match refusal {
        Refusal::NoSuchGrant => out.push_str("NoSuchGrant"),
        Refusal::GcStoreFault => out.push_str("GcStoreFault"),
        Refusal::Alloc(error) => push_alloc_error(alloc, out, allocator, info, error),
    }
}

/// Adds the text on one line.
fn push_one_line(out: &mut String, text: &str) -> Result<(), AllocError>
    ensures { OnOk result (string_bytes out.new ≡ string_bytes out.old ++ one_line text.now) }
{
    let mut rest = text;
    'parts: loop {
        let Some((line, after)) = rest.split_once('\n') else {
            return out.push_str(rest);
        };
        out.push_str(line)?;
        out.push_str("\\n")?;
        rest = after;
    }
}

/// The text of the rule, with the parts of the module where it tells them and the module is given.
fn rule_text(
    alloc: Global,
    rule: Unsupported,
    info: Option<&ModuleInfo>,
) -> Result<Text, AllocError>
    ensures { IfOk result (λ text. text ≡ whole_text rule (option_map (λ i. i.now) info.entry)) }
{
    match info {
        Some(info) => rule.text(alloc, Some(info)),
        None => Ok(Text::from_string(rule.to_string(alloc)?)),
    }
}

/// Adds the rule's text on one line.
fn push_rule(
    alloc: Global,
    out: &mut String,
    rule: Unsupported,
    info: Option<&ModuleInfo>,
) -> Result<(), AllocError>
    ensures { OnOk result (string_bytes out.new ≡ string_bytes out.old ++ one_line (whole_text rule (option_map (λ i. i.now) info.entry))) }
{
    let text = rule_text(alloc, rule, info)?;
    push_one_line(out, text.as_str())
}

fn push_unsupported(
    alloc: Global,
    out: &mut String,
    rule: Unsupported,
    info: Option<&ModuleInfo>,
) -> Result<(), AllocError>
    ensures { OnOk result (string_bytes out.new ≡ string_bytes out.old ++ (codes "Unsupported: " ++ one_line (whole_text rule (option_map (λ i. i.now) info.entry)))) }
{
    out.push_str("Unsupported: ")?;
    push_rule(alloc, out, rule, info)
}

fn push_alloc_error(
    alloc: Global,
    out: &mut String,
    allocator: Allocator,
    info: Option<&ModuleInfo>,
    error: Refused,
) -> Result<(), AllocError>
    ensures { OnOk result (string_bytes out.new ≡ string_bytes out.old ++ alloc_error_text allocator (option_map (λ i. i.now) info.entry) error) }
{
    match error {
        Refused::Memory => out.push_str("NoMemory"),
        Refused::Unsupported(rule) => push_unsupported(alloc, out, rule, info),
        Refused::Limit(limit) => write!(out, "PoolConcurrencyLimitError: {limit}"),
        Refused::StacksDisabled => push_no_stacks(out, allocator),
        Refused::HeapsDisabled => out.push_str("HeapsDisabled: no GC collector is configured"),
        Refused::LimiterDenied { table, min } => {
            out.push_str("LimiterDenied: ")?;
            push_denied(out, table, min)
        }
        Refused::LimiterFault(fault) => write!(out, "LimiterFault: {fault}"),
        Refused::PageFault => out.push_str("PageFault"),
        Refused::HeapFault => out.push_str("HeapFault"),
    }
}

fn push_no_stacks(out: &mut String, allocator: Allocator) -> Result<(), AllocError>
    ensures { OnOk result (string_bytes out.new ≡ string_bytes out.old ++ (codes "StacksDisabled: " ++ no_stacks_text allocator)) }
{
    match allocator {
        Allocator::Pooling => out.push_str(
            "StacksDisabled: pooling allocator not configured to enable fiber stack allocation",
        ),
        Allocator::OnDemand => {
            out.push_str("StacksDisabled: fiber stacks are not supported by the allocator")
        }
    }
}

fn push_denied(out: &mut String, table: bool, min: u64) -> Result<(), AllocError>
    ensures { OnOk result (string_bytes out.new ≡ string_bytes out.old ++ denied_text table min) }
{
    if table {
        write!(
            out,
            "table minimum size of {min} elements exceeds table limits"
        )
    } else {
        write!(
            out,
            "memory minimum size of {min} pages exceeds memory limits"
        )
    }
}

pub(crate) fn push_trap(out: &mut String, trap: Trap) -> Result<(), AllocError>
    ensures { OnOk result (string_bytes out.new ≡ string_bytes out.old ++ trap_text trap) }
{
    match trap {
        Trap::MemoryOutOfBounds => out.push_str("MemoryOutOfBounds"),
        Trap::TableOutOfBounds => out.push_str("TableOutOfBounds"),
        Trap::HeapMisaligned => out.push_str("HeapMisaligned"),
        Trap::AtomicWaitNonSharedMemory => out.push_str("AtomicWaitNonSharedMemory"),
    }
}

pub(crate) fn push_grown(out: &mut String, old: Option<u64>) -> Result<(), AllocError>
    ensures { OnOk result (string_bytes out.new ≡ string_bytes out.old ++ grown_text old) }
{
    match old {
        None => out.push_str("grown none"),
        Some(old) => write!(out, "grown {old}"),
    }
}

fn push_element(out: &mut String, element: Element) -> Result<(), AllocError>
    ensures { OnOk result (string_bytes out.new ≡ string_bytes out.old ++ element_text element) }
{
    match element {
        Element::Uninitialised => out.push_str("uninitialised"),
        Element::Func(None) => out.push_str("func null"),
        Element::Func(Some(name)) => write!(out, "func {name}"),
        Element::Gc(None) => out.push_str("gc null"),
        Element::Gc(Some(reference)) => write!(out, "gc {reference}"),
        Element::Cont(None) => out.push_str("cont null"),
        Element::Cont(Some(object)) => push_continuation(out, object),
    }
}

fn push_continuation(out: &mut String, object: VMContObj) -> Result<(), AllocError>
    ensures { OnOk result (string_bytes out.new ≡ string_bytes out.old ++ cont_text (Some object)) }
{
    let contref = object.contref;
    let revision = object.revision;
    write!(out, "cont {contref} {revision}")
}

fn push_reply(
    alloc: Global,
    out: &mut String,
    allocator: Allocator,
    info: Option<&ModuleInfo>,
    reply: &Reply,
) -> Result<(), AllocError>
    ensures { OnOk result (string_bytes out.new ≡ string_bytes out.old ++ reply_text allocator (option_map (λ i. i.now) info.entry) reply.now) }
{
    match reply {
        Reply::Instance { memories, tables } => {
            out.push_str("granted memories ")?;
            push_numbers(out, memories.as_slice())?;
            out.push_str(" tables ")?;
            push_numbers(out, tables.as_slice())
        }
        Reply::Component => out.push_str("granted component"),
        Reply::Stack(slot) => write!(out, "granted stack {slot}"),
        Reply::Heap { heap, memory } => write!(out, "granted heap {heap} memory {memory}"),
        Reply::Bytes(bytes) => {
            out.push_str("bytes ")?;
            push_bytes(alloc, out, bytes.as_slice())
        }
        Reply::Done => out.push_str("done"),
        Reply::Size(size) => write!(out, "size {size}"),
        Reply::Grown(old) => push_grown(out, *old),
        Reply::Element(element) => push_element(out, *element),
        Reply::Returned => out.push_str("returned"),
        Reply::Purged(slots) => write!(out, "purged {slots}"),
        Reply::Released(bytes) => write!(out, "released {bytes}"),
        Reply::Refused(refusal) => {
            out.push_str("refused ")?;
            push_refusal(alloc, out, allocator, info, *refusal)
        }
        Reply::Trap(trap) => {
            out.push_str("trap ")?;
            push_trap(out, *trap)
        }
    }
}

/// The module of which the command asks for an instance.
fn module_of<'a>(modules: &'a [ModuleInfo], command: &Command) -> Option<&'a ModuleInfo>
    ensures { option_map (λ i. i.now) result ≡ module_of modules.now command.now }
{
    match command {
        Command::Instantiate { module } => modules.get(*module),
        _ => None,
    }
}

/// That of the command with this number of the party with this number.
fn module_asked(input: &Input, party: usize, command: usize) -> Option<&ModuleInfo>
    ensures { option_map (λ i. i.now) result ≡ module_asked input.now party command }
{
    let party = input.parties.as_slice().get(party)?;
    let command = party.commands.as_slice().get(command)?;
    module_of(input.modules.as_slice(), command)
}

/// Adds the text of a pool's reply to this command of this party.
pub fn push_pool_reply(
    alloc: Global,
    out: &mut String,
    input: &Input,
    party: usize,
    command: usize,
    reply: &Reply,
) -> Result<(), AllocError>
    ensures { OnOk result (string_bytes out.new ≡ string_bytes out.old ++ reply_text Allocator.Pooling (module_asked input.now party command) reply.now) }
{
    let info = module_asked(input, party, command);
    push_reply(alloc, out, Allocator::Pooling, info, reply)
}

fn push_reply_line(
    alloc: Global,
    out: &mut String,
    allocator: Allocator,
    input: &Input,
    party: usize,
    command: usize,
    reply: &Reply,
) -> Result<(), AllocError>
    ensures { OnOk result (string_bytes out.new ≡ string_bytes out.old ++ reply_line allocator input.now party command reply.now) }
{
    write!(out, "{party}.{command}: ")?;
    push_reply(
        alloc,
        out,
        allocator,
        module_asked(input, party, command),
        reply,
    )?;
    out.push_str("\n")
}

fn push_reply_lines(
    alloc: Global,
    out: &mut String,
    allocator: Allocator,
    input: &Input,
    party: usize,
    replies: &ReplyList,
) -> Result<(), AllocError>
    ensures { OnOk result (string_bytes out.new ≡ string_bytes out.old ++ reply_lines allocator input.now party 0 replies.now) }
{
    for (command, reply) in replies.as_slice().iter().enumerate() {
        push_reply_line(alloc, out, allocator, input, party, command, reply)?;
    }
    Ok(())
}

fn push_party_lines(
    alloc: Global,
    out: &mut String,
    allocator: Allocator,
    input: &Input,
    parties: &[ReplyList],
) -> Result<(), AllocError>
    ensures { OnOk result (string_bytes out.new ≡ string_bytes out.old ++ party_lines allocator input.now 0 parties.now) }
{
    for (party, replies) in parties.iter().enumerate() {
        push_reply_lines(alloc, out, allocator, input, party, replies)?;
    }
    Ok(())
}

#[tactic(auto, unfolding(crate::specs::Output::named))]
pub(crate) fn push_named(out: &mut String, name: &str, number: u64) -> Result<(), AllocError>
    ensures { OnOk result (string_bytes out.new ≡ string_bytes out.old ++ named name.now number) }
{
    write!(out, "{name}{number}")
}

#[tactic(auto, unfolding(crate::specs::Output::named_or_none))]
fn push_named_or_none(out: &mut String, name: &str, number: Option<usize>) -> Result<(), AllocError>
    ensures { OnOk result (string_bytes out.new ≡ string_bytes out.old ++ named_or_none name.now number) }
{
    match number {
        None => write!(out, "{name}none"),
        Some(number) => push_named(out, name, number as u64),
    }
}

fn push_live(out: &mut String, m: &Metrics) -> Result<(), AllocError>
    ensures { OnOk result (string_bytes out.new ≡ string_bytes out.old ++ live_text m.now) }
{
    push_named(out, "metrics core=", m.core_instances)?;
    push_named(out, " component=", m.component_instances)?;
    push_named(out, " memories=", m.memories as u64)?;
    push_named(out, " tables=", m.tables as u64)?;
    push_named(out, " stacks=", m.stacks as u64)?;
    push_named(out, " heaps=", m.gc_heaps as u64)?;
    Ok(())
}

fn push_warm(out: &mut String, m: &Metrics) -> Result<(), AllocError>
    ensures { OnOk result (string_bytes out.new ≡ string_bytes out.old ++ warm_text m.now) }
{
    push_named(out, " warm_memories=", m.unused_warm_memories as u64)?;
    push_named(
        out,
        " memory_resident=",
        m.unused_memory_bytes_resident as u64,
    )?;
    push_named(out, " warm_tables=", m.unused_warm_tables as u64)?;
    push_named(
        out,
        " table_resident=",
        m.unused_table_bytes_resident as u64,
    )?;
    push_named(out, " warm_stacks=", m.unused_warm_stacks as u64)?;
    push_named_or_none(out, " stack_resident=", m.unused_stack_bytes_resident)?;
    Ok(())
}

pub(crate) fn push_metrics(out: &mut String, m: &Metrics) -> Result<(), AllocError>
    ensures { OnOk result (string_bytes out.new ≡ string_bytes out.old ++ metrics_line m.now) }
{
    push_live(out, m)?;
    push_warm(out, m)?;
    out.push_str("\n")
}

pub(crate) fn push_pages(out: &mut String, calls: &PageCalls) -> Result<(), AllocError>
    ensures { OnOk result (string_bytes out.new ≡ string_bytes out.old ++ pages_line calls.now) }
{
    push_named(out, "pages expose=", calls.expose)?;
    push_named(out, " hide=", calls.hide)?;
    push_named(out, " map_image=", calls.map_image)?;
    push_named(out, " remap_zeros=", calls.remap_zeros)?;
    push_named(out, " erase=", calls.erase)?;
    push_named(out, " recolour=", calls.recolour)?;
    push_named(out, " decommit=", calls.decommit)?;
    out.push_str("\n")
}

/// The text of the output of a run of this input.
pub fn output_text(alloc: Global, input: &Input, output: &RunOutput) -> Result<String, AllocError>
    ensures { IfOk result (λ text. string_bytes text ≡ output_text input.now output.now) }
{
    let mut out = String::new(alloc);
    push_party_lines(
        alloc,
        &mut out,
        Allocator::Pooling,
        input,
        output.replies.as_slice(),
    )?;
    push_metrics(&mut out, &output.metrics)?;
    push_pages(&mut out, &output.calls)?;
    Ok(out)
}

/// The text of the replies of a run of this input on demand.
pub fn replies_text(
    alloc: Global,
    input: &Input,
    replies: &[ReplyList],
) -> Result<String, AllocError>
    ensures { IfOk result (λ text. string_bytes text ≡ replies_text input.now replies.now) }
{
    let mut out = String::new(alloc);
    push_party_lines(alloc, &mut out, Allocator::OnDemand, input, replies)?;
    Ok(out)
}

/// The text of a run of this input with a thread for each party, whose pool was closed.
pub fn threads_text(
    alloc: Global,
    input: &Input,
    replies: &[ReplyList],
) -> Result<String, AllocError>
    ensures { IfOk result (λ text. string_bytes text ≡ threads_text input.now replies.now) }
{
    let mut out = String::new(alloc);
    push_party_lines(alloc, &mut out, Allocator::Pooling, input, replies)?;
    out.push_str("closed\n")?;
    Ok(out)
}
