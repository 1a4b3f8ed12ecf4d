//! What the commands of each kind cost.
ghost use Rattle.std.specs.Prelude.{◌≡◌};
ghost use Rattle.pool_view_summary.specs.Kinds.{bound_with, calls_of_bytes, calls_of_elements, calls_of_ends, calls_of_kinds, calls_of_requests, ended_with, no_kind, no_kinds, of_kind, of_kind_with, with_kind};

use pool_pages::PageCalls;
use pool_view_steps::CommandKind;

/// What the commands of a kind did, those that have their replies.
#[derive(Clone, Copy, Debug, PartialEq, Eq)]
pub struct OfKind {
    pub commands: u64,
    /// The steps of all of them.
    pub steps: u64,
    /// The steps of the longest.
    pub most: u64,
    /// The greatest of their bounds. None where one is above 2^64 - 1.
    pub bound: Option<u64>,
    /// Of their steps, also of commands that have no reply.
    pub calls: PageCalls,
}

/// The same of all kinds.
#[derive(Clone, Copy, Debug, PartialEq, Eq)]
pub struct Kinds {
    pub instantiate: OfKind,
    pub component: OfKind,
    pub stack: OfKind,
    pub heap: OfKind,
    pub read: OfKind,
    pub write: OfKind,
    pub fill: OfKind,
    pub grow: OfKind,
    pub size: OfKind,
    pub get: OfKind,
    pub set: OfKind,
    pub table_fill: OfKind,
    pub table_grow: OfKind,
    pub table_size: OfKind,
    pub drop: OfKind,
    pub purge: OfKind,
    pub release: OfKind,
}

fn bound_with(a: Option<u64>, b: Option<u64>) -> Option<u64>
    ensures { result ≡ bound_with a b }
{
    match (a, b) {
        (Some(a), Some(b)) => Some(a.max(b)),
        _ => None,
    }
}

impl OfKind {
    fn none() -> Self
        ensures { result ≡ no_kind }
    {
        OfKind {
            commands: 0,
            steps: 0,
            most: 0,
            bound: Some(0),
            calls: PageCalls::none(),
        }
    }

    // A command of the kind ended, after so many steps of at most so many.
    fn ended_with(self, steps: u64, bound: Option<u64>) -> Self
        ensures { result ≡ ended_with steps bound self }
    {
        OfKind {
            commands: self.commands.saturating_add(1),
            steps: self.steps.saturating_add(steps),
            most: self.most.max(steps),
            bound: bound_with(self.bound, bound),
            calls: self.calls,
        }
    }

    /// With a step that made these page calls. With the number of its steps, if the command ended with it, and their bound.
    pub fn with_step(self, calls: PageCalls, steps: Option<u64>, bound: Option<u64>) -> Self
        ensures { result ≡ of_kind_with calls steps bound self }
    {
        let all = OfKind {
            calls: self.calls.plus(calls),
            ..self
        };
        match steps {
            None => all,
            Some(steps) => all.ended_with(steps, bound),
        }
    }
}

impl Kinds {
    pub fn none() -> Self
        ensures { result ≡ no_kinds }
    {
        let none = OfKind::none();
        Kinds {
            instantiate: none,
            component: none,
            stack: none,
            heap: none,
            read: none,
            write: none,
            fill: none,
            grow: none,
            size: none,
            get: none,
            set: none,
            table_fill: none,
            table_grow: none,
            table_size: none,
            drop: none,
            purge: none,
            release: none,
        }
    }

    /// What those of a kind did.
    pub fn of_kind(&self, kind: CommandKind) -> OfKind
        ensures { result ≡ of_kind kind self.now }
    {
        match kind {
            CommandKind::Instantiate => self.instantiate,
            CommandKind::Component => self.component,
            CommandKind::Stack => self.stack,
            CommandKind::Heap => self.heap,
            CommandKind::Read => self.read,
            CommandKind::Write => self.write,
            CommandKind::Fill => self.fill,
            CommandKind::Grow => self.grow,
            CommandKind::Size => self.size,
            CommandKind::Get => self.get,
            CommandKind::Set => self.set,
            CommandKind::TableFill => self.table_fill,
            CommandKind::TableGrow => self.table_grow,
            CommandKind::TableSize => self.table_size,
            CommandKind::Drop => self.drop,
            CommandKind::Purge => self.purge,
            CommandKind::Release => self.release,
        }
    }

    /// Those of a kind did this.
    pub fn set(&mut self, kind: CommandKind, entry: OfKind)
        ensures { self.new ≡ with_kind kind entry self.old }
    {
        match kind {
            CommandKind::Instantiate => self.instantiate = entry,
            CommandKind::Component => self.component = entry,
            CommandKind::Stack => self.stack = entry,
            CommandKind::Heap => self.heap = entry,
            CommandKind::Read => self.read = entry,
            CommandKind::Write => self.write = entry,
            CommandKind::Fill => self.fill = entry,
            CommandKind::Grow => self.grow = entry,
            CommandKind::Size => self.size = entry,
            CommandKind::Get => self.get = entry,
            CommandKind::Set => self.set = entry,
            CommandKind::TableFill => self.table_fill = entry,
            CommandKind::TableGrow => self.table_grow = entry,
            CommandKind::TableSize => self.table_size = entry,
            CommandKind::Drop => self.drop = entry,
            CommandKind::Purge => self.purge = entry,
            CommandKind::Release => self.release = entry,
        }
    }

    /// The page calls of all.
    pub fn calls(&self) -> PageCalls
        ensures { result ≡ calls_of_kinds self.now }
    {
        let requests = self.calls_of_requests();
        let bytes = self.calls_of_bytes();
        let elements = self.calls_of_elements();
        requests
            .plus(bytes)
            .plus(elements)
            .plus(self.calls_of_ends())
    }

    fn calls_of_requests(&self) -> PageCalls
        ensures { result ≡ calls_of_requests self.now }
    {
        let instances = self.instantiate.calls.plus(self.component.calls);
        instances.plus(self.stack.calls).plus(self.heap.calls)
    }

    fn calls_of_bytes(&self) -> PageCalls
        ensures { result ≡ calls_of_bytes self.now }
    {
        let moved = self.read.calls.plus(self.write.calls);
        moved
            .plus(self.fill.calls)
            .plus(self.grow.calls)
            .plus(self.size.calls)
    }

    fn calls_of_elements(&self) -> PageCalls
        ensures { result ≡ calls_of_elements self.now }
    {
        let moved = self.get.calls.plus(self.set.calls);
        moved
            .plus(self.table_fill.calls)
            .plus(self.table_grow.calls)
            .plus(self.table_size.calls)
    }

    fn calls_of_ends(&self) -> PageCalls
        ensures { result ≡ calls_of_ends self.now }
    {
        self.drop
            .calls
            .plus(self.purge.calls)
            .plus(self.release.calls)
    }
}
