ghost use Rattle.std.specs.Prelude.{◌≡◌, ℕ, ◌+◌, ◌<◌, length, replicate, slice_get, slice_index_or, false, IfSome};
ghost use Rattle.pool_index.specs.Shard.{one_if};
ghost use Rattle.pool_run.specs.Folds.{HasNothingLeft, commands_of};
ghost use Rattle.pool_run.specs.Progress.{is_busy, calls_begun, begins_call, IsRunOf};
ghost use Rattle.pool_run.specs.RunsMade.{Background};
ghost use Rattle.pool_run.specs.Schedules.{turns_of};
ghost use Rattle.pool_run.specs.Watching.{Watches, WatchesFinish, WatchesSome, has_nothing_left};

use crate::command::Command;
use crate::input::{Input, ScheduleEntry};
use crate::told_run::ToldRun;
use crate::watcher::Watcher;
use pool_pages::Pages;
use std::alloc::Global;

// Whether party `i`, which has these commands, has nothing left.
fn has_nothing_left<P: Pages>(run: &ToldRun<P>, i: usize, commands: &[Command]) -> bool
    requires { i < length run.now.parties }
    ensures { result ≡ has_nothing_left commands.now (slice_get run.now.parties i) }
{
    !run.is_busy(i) && run.done(i) >= commands.len()
}

// Makes so many turns of party `i`. Once it has nothing left, those that are left would change nothing: they aren't made.
fn repeat<P: Pages, W: Watcher<P>>(
    run: &mut ToldRun<P>,
    alloc: Global,
    input: &Input,
    i: usize,
    times: u64,
    watcher: &mut W,
)
    ghost of: { Background }
    requires run { IsRunOf of input.now.parties run.old }
    requires inside { i < length input.now.parties }
    ensures watched { Watches (W.leads input.now) of.modules of.inputs (replicate times i) run.old run.new watcher.old watcher.new }
    ensures run { IsRunOf of input.now.parties run.new }
{
    let parties = input.parties.as_slice();
    let commands = parties[i].commands.as_slice();
    for turn in 0..times {
        if has_nothing_left(run, i, commands) {
            return;
        }
        run.turn(alloc, input, i, watcher);
    }
}

// Makes the turns of a schedule.
pub(crate) fn follow<P: Pages, W: Watcher<P>>(
    run: &mut ToldRun<P>,
    alloc: Global,
    input: &Input,
    schedule: &[ScheduleEntry],
    watcher: &mut W,
)
    ghost of: { Background }
    requires run { IsRunOf of input.now.parties run.old }
    requires entries { (k : ℕ) (d : ScheduleEntry) → k < length schedule.now → (slice_index_or schedule.now k d).party < length input.now.parties }
    ensures watched { Watches (W.leads input.now) of.modules of.inputs (turns_of schedule.now) run.old run.new watcher.old watcher.new }
    ensures run { IsRunOf of input.now.parties run.new }
{
    for at in 0..schedule.len() {
        let entry = schedule[at];
        repeat(run, alloc, input, entry.party, entry.times, watcher);
    }
}

// Makes turns of party `i` until its call has ended, if one is under way.
fn end_call<P: Pages, W: Watcher<P>>(
    run: &mut ToldRun<P>,
    alloc: Global,
    input: &Input,
    i: usize,
    watcher: &mut W,
)
    ghost of: { Background }
    requires run { IsRunOf of input.now.parties run.old }
    requires inside { i < length input.now.parties }
    ensures watched { WatchesSome (W.leads input.now) of.modules of.inputs i run.old run.new watcher.old watcher.new }
    ensures run { IsRunOf of input.now.parties run.new }
    ensures idle { is_busy (slice_get run.new.parties i) ≡ false }
    ensures begun { calls_begun (slice_get run.new.parties i) ≡ calls_begun (slice_get run.old.parties i) }
{
    while run.is_busy(i) {
        run.turn(alloc, input, i, watcher);
    }
}

// Makes the turns of party `i`'s next call, to its end.
fn next_call<P: Pages, W: Watcher<P>>(
    run: &mut ToldRun<P>,
    alloc: Global,
    input: &Input,
    i: usize,
    watcher: &mut W,
)
    ghost of: { Background }
    requires run { IsRunOf of input.now.parties run.old }
    requires inside { i < length input.now.parties }
    requires left { has_nothing_left (commands_of of.inputs i) (slice_get run.old.parties i) ≡ false }
    ensures watched { WatchesSome (W.leads input.now) of.modules of.inputs i run.old run.new watcher.old watcher.new }
    ensures run { IsRunOf of input.now.parties run.new }
    ensures idle { is_busy (slice_get run.new.parties i) ≡ false }
    ensures begun { calls_begun (slice_get run.new.parties i) ≡ calls_begun (slice_get run.old.parties i) + one_if (begins_call (length (commands_of of.inputs i)) (slice_get run.old.parties i)) }
{
    run.turn(alloc, input, i, watcher);
    end_call(run, alloc, input, i, watcher);
}

// Makes turns of party `i` until it has nothing left.
fn finish_party<P: Pages, W: Watcher<P>>(
    run: &mut ToldRun<P>,
    alloc: Global,
    input: &Input,
    i: usize,
    watcher: &mut W,
)
    ghost of: { Background }
    requires run { IsRunOf of input.now.parties run.old }
    requires inside { i < length input.now.parties }
    ensures watched { WatchesSome (W.leads input.now) of.modules of.inputs i run.old run.new watcher.old watcher.new }
    ensures run { IsRunOf of input.now.parties run.new }
    ensures finished { IfSome (slice_get run.new.parties i) (HasNothingLeft (commands_of of.inputs i)) }
{
    let parties = input.parties.as_slice();
    let count = parties[i].commands.len();
    end_call(run, alloc, input, i, watcher);
    while run.done(i) < count {
        next_call(run, alloc, input, i, watcher);
    }
}

// Makes turns of each party until it has nothing left, party by party.
pub(crate) fn finish<P: Pages, W: Watcher<P>>(
    run: &mut ToldRun<P>,
    alloc: Global,
    input: &Input,
    watcher: &mut W,
)
    ghost of: { Background }
    requires run { IsRunOf of input.now.parties run.old }
    ensures watched { WatchesFinish (W.leads input.now) of.modules of.inputs run.old run.new watcher.old watcher.new }
    ensures run { IsRunOf of input.now.parties run.new }
{
    for i in 0..input.parties.len() {
        finish_party(run, alloc, input, i, watcher);
    }
}
