//! What is done where memory is refused.

/// The value of a call that may find no memory; once refused, the call is made again.
macro_rules! again {
    ($rt:expr; $call:expr) => {
        match $call {
            Ok(value) => value,
            Err(_) => {
                $rt.eprintln("refused")?;
                $call?
            }
        }
    };
}

pub(crate) use again;
