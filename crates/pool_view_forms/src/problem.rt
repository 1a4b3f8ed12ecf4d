use std::alloc::{AllocError, AllocFailed, Global};

/// What is wrong with an input.
#[derive(Debug, Drop)]
pub struct Problem {
    /// Where: fields joined by dots, and numbers of items in brackets.
    pub place: String,
    /// Why, and where it helps what to do.
    pub cause: String,
}

/// Why a walk over an input stops before its end.
#[derive(Drop)]
pub enum Stop {
    Problem(Problem),
    Memory,
}

/// A walk over an input: it goes to the end, or stops at the first thing that is wrong.
pub type Walk = Result<(), Stop>;

/// From a value to one in it.
#[derive(Clone, Copy, Debug, PartialEq, Eq)]
pub enum Step<'a> {
    Field(&'a str),
    Item(usize),
}

impl From<AllocError> for Stop {
    fn from(_e: AllocError) -> Stop {
        Stop::Memory
    }
}

impl<T: Drop> From<AllocFailed<T>> for Stop {
    fn from(_e: AllocFailed<T>) -> Stop {
        Stop::Memory
    }
}

impl Stop {
    /// A problem at this place.
    pub fn at(alloc: Global, place: &str, cause: String) -> Stop {
        match String::from_str(alloc, place) {
            Ok(place) => Stop::Problem(Problem { place, cause }),
            Err(_) => Stop::Memory,
        }
    }

    /// The same, seen from the value that this step leads from.
    pub fn within(self, alloc: Global, step: Step<'_>) -> Stop {
        match self {
            Stop::Problem(problem) => match joined(alloc, step, problem.place.as_str()) {
                Ok(place) => Stop::Problem(Problem {
                    place,
                    cause: problem.cause,
                }),
                Err(_) => Stop::Memory,
            },
            Stop::Memory => Stop::Memory,
        }
    }
}

/// The place that the step and then the rest lead to.
fn joined(alloc: Global, step: Step<'_>, rest: &str) -> Result<String, AllocError> {
    let dot = if rest.is_empty() || rest.starts_with('[') {
        ""
    } else {
        "."
    };
    match step {
        Step::Field(name) => format!(in alloc; "{name}{dot}{rest}"),
        Step::Item(at) => format!(in alloc; "[{at}]{dot}{rest}"),
    }
}

/// The walk, seen from the value that this step leads from.
pub fn within(alloc: Global, step: Step<'_>, walk: Walk) -> Walk {
    match walk {
        Ok(()) => Ok(()),
        Err(stop) => Err(stop.within(alloc, step)),
    }
}
