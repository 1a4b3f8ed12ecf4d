ghost use Rattle.std.specs.Prelude.{◌≡◌, ◌<◌, length, option_map};
ghost use Rattle.pool_view_summary.specs.Counts.{asks_grant, cause_of, command_ended, count_for, counted, ends_request, no_counts, refused_more, refused_with};

use pool_pages::Pages;
use pool_run::{Command, Input, Refusal, Reply, Run};
use pool_slots::AllocError;
use pool_view_steps::command_of;

/// Why a command was refused, as refusals are counted.
#[derive(Clone, Copy, Debug, PartialEq, Eq)]
pub enum Cause {
    NoSuchGrant,
    GcStoreFault,
    NoMemory,
    Unsupported,
    /// There is no room at present.
    Limit,
    StacksDisabled,
    HeapsDisabled,
    LimiterDenied,
    LimiterFault,
    PageFault,
    HeapFault,
}

/// How many commands were refused, by cause.
#[derive(Clone, Copy, Debug, PartialEq, Eq)]
pub struct Refusals {
    pub no_such_grant: u64,
    pub gc_store_fault: u64,
    pub no_memory: u64,
    pub unsupported: u64,
    pub limit: u64,
    pub stacks_disabled: u64,
    pub heaps_disabled: u64,
    pub limiter_denied: u64,
    pub limiter_fault: u64,
    pub page_fault: u64,
    pub heap_fault: u64,
}

/// What of a run is counted: its steps, the requests that have their replies, and the refusals. Each stands still at the end of its
/// type.
#[derive(Clone, Copy, Debug, PartialEq, Eq)]
pub struct Counts {
    pub steps: u64,
    pub requests: u64,
    pub refusals: Refusals,
}

impl Counts {
    /// Nothing is counted yet.
    pub fn none() -> Self
        ensures { result ≡ no_counts }
    {
        Counts {
            steps: 0,
            requests: 0,
            refusals: Refusals {
                no_such_grant: 0,
                gc_store_fault: 0,
                no_memory: 0,
                unsupported: 0,
                limit: 0,
                stacks_disabled: 0,
                heaps_disabled: 0,
                limiter_denied: 0,
                limiter_fault: 0,
                page_fault: 0,
                heap_fault: 0,
            },
        }
    }

    /// Counts a turn of a party.
    pub fn count<P: Pages>(
        &mut self,
        run: &Run<P>,
        input: &Input,
        party: usize,
        reply: &Option<Reply>,
    )
        requires { party < length run.now.parties }
        ensures { self.new ≡ counted input.now (record { party = party; run = run.now; reply = reply.now }) self.old }
    {
        self.steps = self.steps.saturating_add(1);
        if ends_request(run, input, party, reply) {
            self.requests = self.requests.saturating_add(1);
        }
        self.refusals.count_reply(reply);
    }
}

impl Refusals {
    // Counts a reply, where it is a refusal.
    fn count_reply(&mut self, reply: &Option<Reply>)
        ensures { self.new ≡ refused_more reply.now self.old }
    {
        if let Some(Reply::Refused(refusal)) = reply {
            self.add(cause_of(*refusal));
        }
    }

    // One more was refused for this cause.
    fn add(&mut self, cause: Cause)
        ensures { self.new ≡ refused_with cause self.old }
    {
        match cause {
            Cause::NoSuchGrant => self.no_such_grant = self.no_such_grant.saturating_add(1),
            Cause::GcStoreFault => self.gc_store_fault = self.gc_store_fault.saturating_add(1),
            Cause::NoMemory => self.no_memory = self.no_memory.saturating_add(1),
            Cause::Unsupported => self.unsupported = self.unsupported.saturating_add(1),
            Cause::Limit => self.limit = self.limit.saturating_add(1),
            Cause::StacksDisabled => self.stacks_disabled = self.stacks_disabled.saturating_add(1),
            Cause::HeapsDisabled => self.heaps_disabled = self.heaps_disabled.saturating_add(1),
            Cause::LimiterDenied => self.limiter_denied = self.limiter_denied.saturating_add(1),
            Cause::LimiterFault => self.limiter_fault = self.limiter_fault.saturating_add(1),
            Cause::PageFault => self.page_fault = self.page_fault.saturating_add(1),
            Cause::HeapFault => self.heap_fault = self.heap_fault.saturating_add(1),
        }
    }

    /// How many were refused for this cause.
    pub fn count_for(&self, cause: Cause) -> u64
        ensures { result ≡ count_for cause self.now }
    {
        match cause {
            Cause::NoSuchGrant => self.no_such_grant,
            Cause::GcStoreFault => self.gc_store_fault,
            Cause::NoMemory => self.no_memory,
            Cause::Unsupported => self.unsupported,
            Cause::Limit => self.limit,
            Cause::StacksDisabled => self.stacks_disabled,
            Cause::HeapsDisabled => self.heaps_disabled,
            Cause::LimiterDenied => self.limiter_denied,
            Cause::LimiterFault => self.limiter_fault,
            Cause::PageFault => self.page_fault,
            Cause::HeapFault => self.heap_fault,
        }
    }
}

fn cause_of(refusal: Refusal) -> Cause
    ensures { result ≡ cause_of refusal }
{
    match refusal {
        Refusal::NoSuchGrant => Cause::NoSuchGrant,
        Refusal::GcStoreFault => Cause::GcStoreFault,
        Refusal::Alloc(AllocError::Memory) => Cause::NoMemory,
        Refusal::Alloc(AllocError::Unsupported(_)) => Cause::Unsupported,
        Refusal::Alloc(AllocError::Limit(_)) => Cause::Limit,
        Refusal::Alloc(AllocError::StacksDisabled) => Cause::StacksDisabled,
        Refusal::Alloc(AllocError::HeapsDisabled) => Cause::HeapsDisabled,
        Refusal::Alloc(AllocError::LimiterDenied { .. }) => Cause::LimiterDenied,
        Refusal::Alloc(AllocError::LimiterFault(_)) => Cause::LimiterFault,
        Refusal::Alloc(AllocError::PageFault) => Cause::PageFault,
        Refusal::Alloc(AllocError::HeapFault) => Cause::HeapFault,
    }
}

// Whether the command asks for a grant.
fn asks_grant(command: &Command) -> bool
    ensures { result ≡ asks_grant command.now }
{
    matches!(
        command,
        Command::Instantiate { .. }
            | Command::Component { .. }
            | Command::Stack
            | Command::Heap { .. }
    )
}

// The command that ended last with a reply.
fn command_ended<'a, P: Pages>(run: &Run<P>, input: &'a Input, party: usize) -> Option<&'a Command>
    requires { party < length run.now.parties }
    ensures { option_map (λ c. c.now) result ≡ command_ended input.now party run.now.parties }
{
    let done = run.done(party);
    if done == 0 {
        return None;
    }
    command_of(input, party, done - 1)
}

// Whether the turn ended a request.
fn ends_request<P: Pages>(run: &Run<P>, input: &Input, party: usize, reply: &Option<Reply>) -> bool
    requires { party < length run.now.parties }
    ensures { result ≡ ends_request input.now (record { party = party; run = run.now; reply = reply.now }) }
{
    if reply.is_none() {
        return false;
    }
    match command_ended(run, input, party) {
        None => false,
        Some(command) => asks_grant(command),
    }
}
