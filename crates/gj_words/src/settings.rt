//! What a command line asks for.

use clap::Error;
use clap::error::ErrorKind;
use std::alloc::AllocError;

/// What a command line asks for.
#[derive(Clone, Copy, Debug)]
pub enum Settings<'a> {
    /// Compile the package in `folder`, and store its script in `out`.
    Build {
        folder: &'a str,
        out: &'a str,
        /// The folder under which import paths are looked up.
        src: &'a str,
        /// Whether the script has no white space that it can do without.
        is_small: bool,
    },
    /// Compile the package in `folder`, and run its script.
    Run {
        folder: &'a str,
        src: &'a str,
        budget: Budget,
    },
    /// Run the script in `file`.
    Exec {
        file: &'a str,
        budget: Budget,
    },
    /// Print the functions that may wait.
    Blocking {
        folder: &'a str,
        src: &'a str,
    },
    /// Compile and run a program with so many goroutines.
    Gen {
        size: u32,
    },
    /// Print the version.
    Version,
}

/// What a run takes its choices from, and how many steps it may take.
#[derive(Clone, Copy, Debug)]
pub struct Budget {
    pub seed: u64,
    pub steps: u64,
}

/// Why words ask for nothing.
#[derive(Clone, Copy, Debug, PartialEq, Eq)]
pub enum NoSettings {
    /// There is no such command, or its words are wrong.
    Usage,
    NoMemory,
}

impl From<AllocError> for NoSettings {
    ghost from_gives = { λ _ _. Unit {0} };

    fn from(_e: AllocError) -> NoSettings {
        NoSettings::NoMemory
    }
}

impl From<Error> for NoSettings {
    ghost from_gives = { λ _ _. Unit {0} };

    fn from(error: Error) -> NoSettings {
        if error.kind() == ErrorKind::OutOfMemory {
            return NoSettings::NoMemory;
        }
        NoSettings::Usage
    }
}
