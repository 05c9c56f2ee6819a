ghost use Rattle.std.specs.Prelude.{◌≡◌};

use crate::recording::{Recording, RecordingFields};

/// The same recording in version 2, in which one of version 1 has a budget of 1 and keeps no registers. Takes no memory.
pub fn migrate(recording: Recording) -> Recording
    ensures { result ≡ record recording { version = 2 } }
{
    let fields = recording.into_fields();
    Recording::of(RecordingFields {
        version: 2,
        ..fields
    })
}
