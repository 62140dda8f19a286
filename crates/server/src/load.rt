//! The setup of an evening, from its file.

ghost use Rattle.std.specs.Prelude.{◌≡◌, ◌≤◌, ◌+◌, length, Err, IfOk};
ghost use Rattle.conn.specs.Faults.{Rose};
ghost use Rattle.conn.specs.Told.{GaveAtMost};
ghost use Rattle.entries.specs.Ranges.{IsGood};
ghost use Rattle.host.specs.Asked.{AreKeysOfPlayers};
ghost use Rattle.server.specs.Loads.{Loads};

use conn::{ReadAllFault, Source, read_all};
use entries::Setup;
use setup_file::{Keys, ReadSetupFault, SetupFault, read_setup};
use std::alloc::Global;
use thiserror::Error;

/// How many bytes a setup's file has at most.
const MOST_BYTES: usize = 1_000_000;

/// Why there is no setup.
#[derive(Debug, Clone, Copy, PartialEq, Eq, Error)]
pub enum LoadFault {
    /// The file has this as its first fault.
    #[error("the setup does not stand: {0:?}")]
    Bad(SetupFault),
    /// The file has more than 1,000,000 bytes.
    #[error("the setup has more than 1000000 bytes")]
    TooLong,
    /// A read failed.
    #[error("the setup could not be read")]
    ReadFault,
    /// There was not memory enough.
    #[error("there was not memory enough for the setup")]
    OutOfMemory,
}

/// Reads a source to its end, and answers the setup and the players' keys that its bytes say. At most 1,000,001 bytes are read.
///
/// `TooLong` comes exactly where the bytes are more than 1,000,000, and otherwise `Bad` exactly with their first fault, unless a
/// read failed or memory ran out.
pub fn load_setup<S: Source>(alloc: Global, source: &mut S) -> Result<(Setup, Keys), LoadFault>
    // What the bytes come to, if the source told them.
    ensures loads { Loads (S.left source.old) (S.left source.new) result }

    // The setup may be served to the players of these keys.
    ensures good { IfOk result (λ read. IsGood read.0) }
    ensures players { IfOk result (λ read. AreKeysOfPlayers (length read.0.players) read.1) }

    // A read failed only where the count of faults rose.
    ensures fault { result ≡ Err LoadFault.ReadFault → Rose (S.faults source.old) (S.faults source.new) }

    // Whatever it answers.
    ensures kept { S.faults source.old ≤ S.faults source.new }
    ensures taken { GaveAtMost (S.left source.old) (S.left source.new) (MOST_BYTES + 1) }
{
    let bytes = match read_all(alloc, source, MOST_BYTES) {
        Ok(bytes) => bytes,
        Err(ReadAllFault::TooLong) => return Err(LoadFault::TooLong),
        Err(ReadAllFault::ReadFault) => return Err(LoadFault::ReadFault),
        Err(ReadAllFault::OutOfMemory) => return Err(LoadFault::OutOfMemory),
    };
    match read_setup(alloc, &bytes) {
        Ok(read) => Ok(read),
        Err(ReadSetupFault::Bad(fault)) => Err(LoadFault::Bad(fault)),
        Err(ReadSetupFault::OutOfMemory) => Err(LoadFault::OutOfMemory),
    }
}
