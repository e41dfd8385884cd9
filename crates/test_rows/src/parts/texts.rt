//! How addresses and refusals are written, and how ids and pairs are ordered.

use crate::lines::{Desk, Page};
use crate::parts::picks::pair;
use rc_types::{Addr, Fault};
use std::cmp::Ordering;

/// One command.
pub fn take(command: &str, desk: &mut Desk) {
    let Desk { numbers, page, .. } = desk;
    match command {
        "server" => write!(page, " {}", Addr::Server(numbers.id())),
        "coordinator" => write!(page, " {}", Addr::Coordinator),
        "outside" => write!(page, " {}", Addr::Outside),
        "fault" => write_fault(numbers.next(), numbers.next(), page),
        "ids" => page.put(name_of(numbers.id().cmp(&numbers.id()))),
        "pairs" => page.put(name_of(pair(numbers).cmp(&pair(numbers)))),
        _ => page.put(" no such command"),
    }
}

fn name_of(order: Ordering) -> &'static str {
    match order {
        Ordering::Less => " less",
        Ordering::Equal => " equal",
        Ordering::Greater => " greater",
    }
}

/// The code and the text of a refusal.
fn write_fault(number: u64, detail: u64, page: &mut Page) {
    let Some(fault) = fault_of(number, detail) else {
        return page.put(" none");
    };
    let code = fault.code();
    write!(page, " {code} number {}: {fault}", code.number());
}

/// The refusal of this number, with what it says beside.
fn fault_of(number: u64, detail: u64) -> Option<Fault> {
    Some(match number {
        1 => Fault::OutOfMemory,
        2 => Fault::NotOwner,
        3 => Fault::Rolling,
        4 => Fault::NoBackups,
        5 => Fault::Deposed,
        6 => Fault::LogFull,
        7 => Fault::ValueTooLong,
        8 => Fault::HeadMissing,
        9 => Fault::SegmentMissing(detail.min(65_535) as u16),
        10 => Fault::StaleAttempt,
        11 => Fault::NotReady,
        12 => Fault::TableExists,
        13 => Fault::NoTable,
        14 => Fault::BadSplit,
        15 => Fault::TooManyTablets,
        16 => Fault::Recovering,
        17 => Fault::BadScenario(detail as usize),
        18 => Fault::BadEvent,
        19 => Fault::EpochsExhausted,
        20 => Fault::Pending,
        21 => Fault::StaleGeneration,
        _ => return None,
    })
}
