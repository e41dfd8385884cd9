//! Why something is refused.

ghost use Rattle.std.specs.Prelude.{◌≡◌};

use std::alloc::{AllocError, AllocFailed};
use std::fmt;
use thiserror::Error;

/// The code of a refusal. `F1` to `F21` are the names that the program prints; "Refusals" in
/// `docs/PROTOCOL.md` says who answers which, and when.
#[derive(Clone, Copy)]
pub enum Code {
    /// F1: a growth, or the making of a thread, was refused.
    OutOfMemory = 1,
    /// F2: no range granted to the master holds the point.
    NotOwner = 2,
    /// F3: the master is not writing, or its head is full and the roll has begun.
    Rolling = 3,
    /// F4: too few hosts are up for the factor.
    NoBackups = 4,
    /// F5: the sender is not up, or the master has learnt that it is not.
    Deposed = 5,
    /// F6: the last segment is full.
    LogFull = 6,
    /// F7: the value has more than 1,024 bytes.
    ValueTooLong = 7,
    /// F8: no open replica is valid.
    HeadMissing = 8,
    /// F9: the least segment of the digest without a valid replica.
    SegmentMissing = 9,
    /// F10: the attempt is not current, the term is not the sender's in it, or none is gathering.
    StaleAttempt = 10,
    /// F11: the owner is not up and ready, or no server is.
    NotReady = 11,
    /// F12: the table is there.
    TableExists = 12,
    /// F13: there is no such table or range.
    NoTable = 13,
    /// F14: the key is the first of its tablet.
    BadSplit = 14,
    /// F15: 1,024 tablets stand.
    TooManyTablets = 15,
    /// F16: the tablet's owner has crashed.
    Recovering = 16,
    /// F17: the input of the program is wrong at this place.
    BadScenario = 17,
    /// F18: the event is not possible in this world.
    BadEvent = 18,
    /// F19: the last epoch is in use.
    EpochsExhausted = 19,
    /// F20: a step is pending.
    Pending = 20,
    /// F21: the generation is not above all known of its index, or the id has crashed.
    StaleGeneration = 21,
}

impl Code {
    ghost use Rattle.rc_types.specs.Codes.{code_number, code_name};

    /// The number behind the `F`.
    pub fn number(self) -> u8
        ensures { result ≡ code_number self }
    {
        self as u8
    }

    /// Its name, as "Refusals" in `docs/PROTOCOL.md` spells it.
    pub fn name(self) -> &'static str
        ensures { result.now ≡ code_name self }
    {
        match self {
            Code::OutOfMemory => "OutOfMemory",
            Code::NotOwner => "NotOwner",
            Code::Rolling => "Rolling",
            Code::NoBackups => "NoBackups",
            Code::Deposed => "Deposed",
            Code::LogFull => "LogFull",
            Code::ValueTooLong => "ValueTooLong",
            Code::HeadMissing => "HeadMissing",
            Code::SegmentMissing => "SegmentMissing",
            Code::StaleAttempt => "StaleAttempt",
            Code::NotReady => "NotReady",
            Code::TableExists => "TableExists",
            Code::NoTable => "NoTable",
            Code::BadSplit => "BadSplit",
            Code::TooManyTablets => "TooManyTablets",
            Code::Recovering => "Recovering",
            Code::BadScenario => "BadScenario",
            Code::BadEvent => "BadEvent",
            Code::EpochsExhausted => "EpochsExhausted",
            Code::Pending => "Pending",
            Code::StaleGeneration => "StaleGeneration",
        }
    }
}

impl fmt::Display for Code {
    fn fmt<W: fmt::Write>(&self, f: &mut fmt::Formatter<W>) -> fmt::Result {
        write!(f, "F{}", self.number())
    }
}

/// A refusal: a code, with the segment that is missing or the place that is wrong.
#[derive(Clone, Copy, Error)]
pub enum Fault {
    /// F1: a growth, or the making of a thread, was refused.
    #[error("F1: a growth, or the making of a thread, was refused")]
    OutOfMemory,
    /// F2: no range granted to the master holds the point.
    #[error("F2: no range granted to the master holds the point")]
    NotOwner,
    /// F3: the master is not writing, or its head is full and the roll has begun.
    #[error("F3: the master is not writing, or its head is full and the roll has begun")]
    Rolling,
    /// F4: too few hosts are up for the factor.
    #[error("F4: too few hosts are up for the factor")]
    NoBackups,
    /// F5: the sender is not up, or the master has learnt that it is not.
    #[error("F5: the sender is not up, or the master has learnt that it is not")]
    Deposed,
    /// F6: the last segment is full.
    #[error("F6: the last segment is full")]
    LogFull,
    /// F7: the value has more than 1,024 bytes.
    #[error("F7: the value has more than 1,024 bytes")]
    ValueTooLong,
    /// F8: no open replica is valid.
    #[error("F8: no open replica is valid")]
    HeadMissing,
    /// F9: the least segment of the digest without a valid replica.
    #[error("F9: segment {0} has no valid replica")]
    SegmentMissing(u16),
    /// F10: the attempt is not current, the term is not the sender's in it, or none is gathering.
    #[error("F10: the attempt is not current, the term is not the sender's in it, or none is gathering")]
    StaleAttempt,
    /// F11: the owner is not up and ready, or no server is.
    #[error("F11: the owner is not up and ready, or no server is")]
    NotReady,
    /// F12: the table is there.
    #[error("F12: the table is there")]
    TableExists,
    /// F13: there is no such table or range.
    #[error("F13: there is no such table or range")]
    NoTable,
    /// F14: the key is the first of its tablet.
    #[error("F14: the key is the first of its tablet")]
    BadSplit,
    /// F15: 1,024 tablets stand.
    #[error("F15: 1,024 tablets stand")]
    TooManyTablets,
    /// F16: the tablet's owner has crashed.
    #[error("F16: the tablet's owner has crashed")]
    Recovering,
    /// F17: the input of the program is wrong at this place.
    #[error("F17: bad input at {0}")]
    BadScenario(usize),
    /// F18: the event is not possible in this world.
    #[error("F18: the event is not possible in this world")]
    BadEvent,
    /// F19: the last epoch is in use.
    #[error("F19: the last epoch is in use")]
    EpochsExhausted,
    /// F20: a step is pending.
    #[error("F20: a step is pending")]
    Pending,
    /// F21: the generation is not above all known of its index, or the id has crashed.
    #[error("F21: the generation is not above all known of its index, or the id has crashed")]
    StaleGeneration,
}

impl Fault {
    ghost use Rattle.rc_types.specs.declared.faults.Fault.TheVariants.{OutOfMemory};
    ghost use Rattle.rc_types.specs.Codes.{code_of};

    /// The code of this refusal, without its number.
    pub fn code(self) -> Code
        ensures { result ≡ code_of self }
    {
        match self {
            Fault::OutOfMemory => Code::OutOfMemory,
            Fault::NotOwner => Code::NotOwner,
            Fault::Rolling => Code::Rolling,
            Fault::NoBackups => Code::NoBackups,
            Fault::Deposed => Code::Deposed,
            Fault::LogFull => Code::LogFull,
            Fault::ValueTooLong => Code::ValueTooLong,
            Fault::HeadMissing => Code::HeadMissing,
            Fault::SegmentMissing(_) => Code::SegmentMissing,
            Fault::StaleAttempt => Code::StaleAttempt,
            Fault::NotReady => Code::NotReady,
            Fault::TableExists => Code::TableExists,
            Fault::NoTable => Code::NoTable,
            Fault::BadSplit => Code::BadSplit,
            Fault::TooManyTablets => Code::TooManyTablets,
            Fault::Recovering => Code::Recovering,
            Fault::BadScenario(_) => Code::BadScenario,
            Fault::BadEvent => Code::BadEvent,
            Fault::EpochsExhausted => Code::EpochsExhausted,
            Fault::Pending => Code::Pending,
            Fault::StaleGeneration => Code::StaleGeneration,
        }
    }

    /// F1 where nothing but memory can have been refused.
    pub fn only_memory(self) -> AllocError
        requires { self ≡ OutOfMemory }
    {
        match self {
            Fault::OutOfMemory => AllocError,
            _ => unreachable!(),
        }
    }
}

/// For a debugger a refusal is its text.
impl fmt::Debug for Fault {
    fn fmt<W: fmt::Write>(&self, f: &mut fmt::Formatter<W>) -> fmt::Result {
        write!(f, "{self}")
    }
}

/// What has no memory is F1.
impl From<AllocError> for Fault {
    ghost use Rattle.rc_types.specs.declared.faults.Fault.TheVariants.{OutOfMemory};

    ghost from_gives = { λ _ e. e ≡ OutOfMemory };

    fn from(_: AllocError) -> Fault {
        Fault::OutOfMemory
    }
}

/// What could not be stored for want of memory is F1.
impl<T: Drop> From<AllocFailed<T>> for Fault {
    ghost use Rattle.rc_types.specs.declared.faults.Fault.TheVariants.{OutOfMemory};

    ghost from_gives = { λ _ e. e ≡ OutOfMemory };

    fn from(_: AllocFailed<T>) -> Fault {
        Fault::OutOfMemory
    }
}
