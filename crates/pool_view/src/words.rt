ghost use Rattle.std.specs.Prelude.{◌≡◌};
ghost use Rattle.pool_view.specs.Words.{checked_word, one_word, two_words, question_of};

/// What the program is asked about an input.
#[derive(Clone, Copy, Debug, PartialEq, Eq)]
pub enum Question {
    /// Whether it is an input of a run that can be run.
    Check,
    /// Whether it is an input of events on a shared memory that can be run.
    CheckShared,
    /// What the settings of an input of a run come to.
    Explain,
    /// What a run of it does, step by step.
    Trace,
    /// What it comes to.
    Summary,
    /// A picture of it.
    Chart,
}

fn one_word(word: &str) -> Option<Question>
    ensures { result ≡ one_word word.now }
{
    if word == "check" {
        Some(Question::Check)
    } else if word == "explain" {
        Some(Question::Explain)
    } else if word == "trace" {
        Some(Question::Trace)
    } else if word == "summary" {
        Some(Question::Summary)
    } else if word == "chart" {
        Some(Question::Chart)
    } else {
        None
    }
}

fn checked_word(word: &str) -> Option<Question>
    ensures { result ≡ checked_word word.now }
{
    if word == "on-demand" {
        Some(Question::Check)
    } else if word == "shared" {
        Some(Question::CheckShared)
    } else {
        None
    }
}

fn two_words(first: &str, second: &str) -> Option<Question>
    ensures { result ≡ two_words first.now second.now }
{
    if first == "check" {
        checked_word(second)
    } else {
        None
    }
}

/// What the words ask, if they are words that the program has.
pub fn question_of(words: &[String]) -> Option<Question>
    ensures { result ≡ question_of words.now }
{
    match words {
        [word] => one_word(word.as_str()),
        [first, second] => two_words(first.as_str(), second.as_str()),
        _ => None,
    }
}
