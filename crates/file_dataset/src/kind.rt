// The kinds of changes of a head.
ghost use Rattle.std.specs.Prelude.{◌≡◌};

use family_log::{LengthAt, Listed, LogEntry, RefAt};

/// Which entry tells a change of a head.
#[derive(Clone, Copy, Debug, PartialEq, Eq)]
pub(crate) enum Kind {
    Make,
    Write,
    Cut,
    Remove,
}

impl Kind {
    ghost use Rattle.file_dataset.specs.Changes.{entry_of};

    /// The entry that tells a change of this kind.
    pub(crate) fn entry(self, head: u32, lengths: Listed<LengthAt>, refs: Listed<RefAt>) -> LogEntry
        ensures { result ≡ entry_of self head lengths refs }
    {
        match self {
            Kind::Make => LogEntry::Make {
                head,
                lengths,
                refs,
            },
            Kind::Write => LogEntry::Write {
                head,
                lengths,
                refs,
            },
            Kind::Cut => LogEntry::Cut {
                head,
                lengths,
                refs,
            },
            Kind::Remove => LogEntry::Remove {
                head,
                lengths,
                refs,
            },
        }
    }
}
