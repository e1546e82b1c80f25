//! Why words are no request.
ghost use Rattle.std.specs.Prelude.{◌≡◌, ◌≢◌};
ghost use Rattle.clap.specs.Words.{kind_of};
ghost use Rattle.clap.specs.declared.error.kind.ErrorKind.TheVariants.{OutOfMemory};
ghost use Rattle.ice_flow_words.specs.declared.fault.WordsFault.TheVariants.{Usage as refused};

use clap::error::ErrorKind;
use thiserror::Error;

/// Why words are no request.
#[derive(Debug, Drop, Error)]
pub enum WordsFault {
    /// The command does not take the words, or they call for help.
    #[error("usage")]
    Usage,
    /// Want of memory.
    #[error("want of memory")]
    NoMemory,
}

impl From<clap::Error> for WordsFault {
    ghost from_gives = { λ error fault. fault ≡ refused → kind_of error ≢ OutOfMemory };

    fn from(error: clap::Error) -> WordsFault {
        if error.kind() == ErrorKind::OutOfMemory {
            WordsFault::NoMemory
        } else {
            WordsFault::Usage
        }
    }
}
