ghost use Rattle.std.specs.Prelude.{◌≡◌, ◌<◌, length};
ghost use Rattle.pool_run.specs.Watching.{TurnTold};
ghost use Rattle.pool_run.specs.declared.input.Input.{Input};

use crate::input::Input;
use crate::reply::Reply;
use crate::run::Run;
use pool_pages::Pages;

/// Who watches a run: it is told of each turn as it is made. It looks at the run before the turn too, and keeps from there what it
/// likes. It can't change the run.
pub trait Watcher<P: Pages> {
    /// What it keeps of a look before a turn.
    type Note: Drop;

    /// What it is after it was told of a turn of a run of the input.
    ghost leads: { Input → TurnTold P → Self → Self → Type 0 };

    /// Looks at the run before a turn of the party.
    fn look(&self, run: &Run<P>, input: &Input, party: usize) -> Self::Note
        requires { party < length run.now.parties };

    /// Is told of a turn of the party: the run after it, and the reply to the command that ended with it.
    fn learn(
        &mut self,
        note: Self::Note,
        run: &Run<P>,
        input: &Input,
        party: usize,
        reply: &Option<Reply>,
    )
        requires { party < length run.now.parties }
        ensures { leads input.now (record { party = party; run = run.now; reply = reply.now }) self.old self.new };
}

/// The watcher of a run that nobody watches.
#[derive(Drop)]
pub struct Nobody;

impl<P: Pages> Watcher<P> for Nobody {
    ghost use Rattle.std.specs.Prelude.{◌≡◌};

    type Note = ();

    ghost leads = { λ input t old new. new ≡ old };

    fn look(&self, run: &Run<P>, input: &Input, party: usize) {}

    fn learn(
        &mut self,
        note: (),
        run: &Run<P>,
        input: &Input,
        party: usize,
        reply: &Option<Reply>,
    ) {}
}
