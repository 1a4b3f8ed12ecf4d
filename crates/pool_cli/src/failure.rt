ghost use Rattle.std.specs.Prelude.{◌≡◌, string_bytes, IfOk};
ghost use Rattle.pool_cli.specs.Lines.{config_line, line_of, status_of_failure};

use crate::status::Status;
use pool_types::BadConfig;
use std::alloc::{AllocError, Global};
use std::fmt::Write;

/// Why there is no output.
#[derive(Drop)]
pub enum Failure {
    BadUsage,
    BadInput,
    /// Has the line that is written, which takes memory of its own.
    BadConfig(String),
    PageFault,
    ReadFault,
    NoMemory,
    TooLong,
}

impl Failure {
    /// The status that the program ends with.
    pub fn status(&self) -> Status
        ensures { result ≡ status_of_failure self.now }
    {
        match self {
            Failure::BadUsage => Status::BadUsage,
            Failure::BadInput => Status::BadInput,
            Failure::BadConfig(_) => Status::BadConfig,
            Failure::PageFault => Status::PageFault,
            Failure::ReadFault => Status::ReadFault,
            Failure::NoMemory => Status::NoMemory,
            Failure::TooLong => Status::TooLong,
        }
    }

    /// What is written.
    pub fn line(&self) -> &str
        ensures { result.now ≡ line_of self.now }
    {
        match self {
            Failure::ReadFault | Failure::NoMemory => "",
            Failure::BadUsage => "error BadUsage: run, run on-demand, threads, shared or load N\n",
            Failure::BadInput => "error BadInput\n",
            Failure::BadConfig(line) => line.as_str(),
            Failure::PageFault => "error PageFault\n",
            Failure::TooLong => "error TooLong\n",
        }
    }
}

/// The line that says why the settings are refused.
pub fn config_line(alloc: Global, error: BadConfig) -> Result<String, AllocError>
    ensures { IfOk result (λ line. string_bytes line ≡ config_line error) }
{
    let mut line = String::new(alloc);
    write!(line, "error BadConfig: {error}\n")?;
    Ok(line)
}
