//! Why a line isn't taken up.
ghost use Rattle.std.specs.Prelude.{◌≡◌};
ghost use Rattle.ob_wire.specs.Refusals.{number_of};

/// Why a line isn't taken up (this project's own), in the order in which it is asked.
#[derive(Clone, Copy)]
pub enum Refusal {
    /// The line has more than `LONGEST_LINE` bytes.
    LongLine,
    /// It is no JSON.
    Json,
    /// It is JSON, but neither a request nor an array of requests.
    Shape,
    /// It is an array of none or of more than `MOST_REQUESTS` requests.
    BatchSize,
    /// A name is that of no handle of the client.
    NoHandle,
    /// There is no contract or interface of that name.
    NoContract,
    /// The contract isn't the main contract.
    NotMain,
    /// The object's contract has no such transaction, or it is private.
    NoTransaction,
    /// There are more or fewer arguments than parameters.
    ArgCount,
    /// An argument isn't of its parameter's type.
    ArgKind,
    /// The mode of a handle doesn't serve where it is used.
    Permission,
    /// An object is used twice, and some use of it owns it at the entry.
    Repeated,
    /// A reference is given, and there is no name for the handle on it.
    IntoMissing,
    /// There is a name for a handle, and no reference is given.
    IntoNeedless,
    /// The client that would get the handle has one of that name.
    IntoTaken,
    /// There are as many handles as there may be.
    HandlesFull,
}

impl Refusal {
    /// The number that a reply has for it.
    pub fn number(self) -> u8
        ensures { result ≡ number_of self }
    {
        match self {
            Refusal::LongLine => 1,
            Refusal::Json => 2,
            Refusal::Shape => 3,
            Refusal::BatchSize => 4,
            Refusal::NoHandle => 5,
            Refusal::NoContract => 6,
            Refusal::NotMain => 7,
            Refusal::NoTransaction => 8,
            Refusal::ArgCount => 9,
            Refusal::ArgKind => 10,
            Refusal::Permission => 11,
            Refusal::Repeated => 12,
            Refusal::IntoMissing => 13,
            Refusal::IntoNeedless => 14,
            Refusal::IntoTaken => 15,
            Refusal::HandlesFull => 16,
        }
    }
}
