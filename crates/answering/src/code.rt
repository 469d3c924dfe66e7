ghost use Rattle.std.specs.Prelude.{◌≡◌};
ghost use Rattle.answering.specs.Faults.{exit_status};

use crate::Status;

/// The status that the program ends with: 0 where a call built what it was asked for, 1 where an instruction failed, 2 where what it was given is
/// refused, and 3 where a fault ended it, whichever it is.
pub fn status_code<F: Drop>(ended: Result<Status, F>) -> u8
    ensures { result ≡ exit_status ended }
{
    match ended {
        Ok(Status::Built) => 0,
        Ok(Status::Failed) => 1,
        Ok(Status::Refused) => 2,
        Err(_) => 3,
    }
}
