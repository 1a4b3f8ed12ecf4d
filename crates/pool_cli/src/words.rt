ghost use Rattle.std.specs.Prelude.{◌≡◌, string_bytes};
ghost use Rattle.std.specs.Char.{is_ascii_digit};
ghost use Rattle.std.specs.List.{list_all};
ghost use Rattle.pool_cli.specs.Words.{number_in, load_of, one_word, two_words, task_of};

/// What the program is asked for.
#[derive(Clone, Copy, Debug, PartialEq, Eq)]
pub enum Task {
    /// A run of the schedule in a pool.
    Run,
    /// A run of it on demand.
    RunOnDemand,
    /// A run of it with a thread for each party.
    Threads,
    /// A run of events on a shared memory.
    Shared,
    /// A run of the load of this seed.
    Load(u64),
    /// Nothing that the program has.
    Unknown,
}

fn all_digits(text: &str) -> bool
    ensures { result ≡ list_all is_ascii_digit text.now }
{
    text.bytes().all(|b| b.is_ascii_digit())
}

// The number that a text of digits alone writes.
fn number_in(text: &str) -> Option<u64>
    ensures { result ≡ number_in text.now }
{
    if text.is_empty() || !all_digits(text) {
        return None;
    }
    text.parse::<u64>().ok()
}

fn load_of(seed: Option<u64>) -> Task
    ensures { result ≡ load_of seed }
{
    match seed {
        Some(seed) => Task::Load(seed),
        None => Task::Unknown,
    }
}

fn one_word(word: &str) -> Task
    ensures { result ≡ one_word word.now }
{
    if word == "run" {
        Task::Run
    } else if word == "threads" {
        Task::Threads
    } else if word == "shared" {
        Task::Shared
    } else {
        Task::Unknown
    }
}

fn two_words(first: &str, second: &str) -> Task
    ensures { result ≡ two_words first.now second.now }
{
    if first == "run" && second == "on-demand" {
        Task::RunOnDemand
    } else if first == "load" {
        load_of(number_in(second))
    } else {
        Task::Unknown
    }
}

/// What the words ask for.
pub fn task_of(words: &[String]) -> Task
    ensures { result ≡ task_of words.now }
{
    match words {
        [word] => one_word(word.as_str()),
        [first, second] => two_words(first.as_str(), second.as_str()),
        _ => Task::Unknown,
    }
}
