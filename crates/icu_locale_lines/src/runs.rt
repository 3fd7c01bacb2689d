//! Runs: tables, input and output, and how a run ends.
ghost use Rattle.std.specs.Prelude.{◌≡◌, ◌↔◌, true};

pub mod cut;
pub mod head;
pub mod input;
pub mod stream;
pub mod whole;
pub mod writing;

/// Whether every line was accepted.
#[derive(Clone, Copy, Debug, PartialEq, Eq)]
pub enum Status {
    /// Every line was.
    Accepted = 0,
    /// Some line was refused.
    Refused = 1,
}

impl Status {
    // The status after one more line.
    pub(crate) fn after(self, accepted: bool) -> Status
        ensures { (result ≡ Status.Accepted)
            ↔ ((self ≡ Status.Accepted) × (accepted ≡ true)) }
    {
        if accepted { self } else { Status::Refused }
    }

    // The status of two runs, one after the other.
    pub(crate) fn and(self, later: Status) -> Status
        ensures { (result ≡ Status.Accepted)
            ↔ ((self ≡ Status.Accepted) × (later ≡ Status.Accepted)) }
    {
        if self == Status::Accepted {
            later
        } else {
            self
        }
    }
}
