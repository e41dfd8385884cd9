//! What the threads and their caller share: how many hints are open, the first fault, and the way to each seat's
//! thread.

ghost use Rattle.std.specs.Prelude.{◌≡◌, ◌⊎◌};
ghost use Rattle.rc_types.specs.declared.faults.Fault.TheVariants.{OutOfMemory, BadEvent};

use crossbeam_channel::{Receiver, SendError, Sender, unbounded};
use rc_types::{Fault, NodeName};
use std::alloc::{AllocError, Global};
use std::sync::{Condvar, Mutex, Wait};

/// What a thread is woken for.
#[derive(Clone, Copy)]
pub(crate) enum Hint {
    /// To do its works among the steps below this number.
    Until(usize),
    /// To look for messages to its node.
    Look,
}

/// Why all is to end.
#[derive(Clone, Copy)]
pub(crate) enum Stop {
    /// Memory or a thread was refused.
    NoMemory,
    /// A work could not be done, or there was no room for an event.
    BadEvent,
}

/// How many hints were given and are not done, and the first fault.
#[derive(Drop)]
struct Open {
    hints: u64,
    stop: Option<Stop>,
}

/// The way to one seat's thread. It ends where the sender is dropped.
#[derive(Drop)]
struct Line {
    number: usize,
    sender: Mutex<Option<Sender<Hint, Global>>>,
    receiver: Receiver<Hint, Global>,
}

impl Line {
    /// Puts the hint into the channel; false once the line has ended.
    fn put<R: Wait>(&self, rt: &R, hint: Hint) -> Result<bool, SendError<Hint>> {
        let sender = self.sender.lock(rt);
        match &*sender {
            Some(sender) => {
                sender.send(rt, hint)?;
                Ok(true)
            }
            None => Ok(false),
        }
    }

    /// The line ends: what is in it can be taken, and then no more. It takes no memory.
    fn end<R: Wait>(&self, rt: &R) {
        let sender = self.sender.lock(rt).take();
        drop(sender);
    }
}

/// What all threads borrow.
#[derive(Drop)]
pub(crate) struct Board {
    lines: Vec<Line>,
    open: Mutex<Open>,
    quiet: Condvar,
}

impl Board {
    /// With a line for each of these seats.
    pub(crate) fn new(alloc: Global, names: &[NodeName]) -> Result<Board, AllocError> {
        let mut lines = Vec::with_capacity(alloc, names.len())?;
        for name in names {
            let (sender, receiver) = unbounded(alloc)?;
            lines.push(Line {
                number: name.number(),
                sender: Mutex::new(Some(sender)),
                receiver,
            })?;
        }
        Ok(Board {
            lines,
            open: Mutex::new(Open {
                hints: 0,
                stop: None,
            }),
            quiet: Condvar::new(),
        })
    }

    /// The line to the seat of this number, if there is one.
    fn line(&self, number: usize) -> Option<&Line> {
        self.lines.iter().find(|line| line.number == number)
    }

    /// Gives a hint to the seat of this number, if it has a line that has not ended. It is open from before it is
    /// given.
    pub(crate) fn give<R: Wait>(&self, rt: &R, number: usize, hint: Hint) {
        let Some(line) = self.line(number) else {
            return;
        };
        self.begin(rt);
        match line.put(rt, hint) {
            Ok(true) => return,
            Ok(false) => {}
            Err(_) => self.stop(rt, Stop::NoMemory),
        }
        self.done(rt);
    }

    /// The next hint to the seat of this number, for which it waits; none where its line has ended.
    ///
    /// # Errors
    ///
    /// All is to end, since somewhere there was a fault.
    pub(crate) fn take<R: Wait>(&self, rt: &R, number: usize) -> Result<Option<Hint>, Stop> {
        self.going(rt)?;
        let hint = self
            .line(number)
            .and_then(|line| line.receiver.recv(rt).ok());
        self.going(rt)?;
        Ok(hint)
    }

    /// Ends every line.
    pub(crate) fn end<R: Wait>(&self, rt: &R) {
        for line in &self.lines {
            line.end(rt);
        }
    }

    /// A hint is open.
    fn begin<R: Wait>(&self, rt: &R) {
        let mut open = self.open.lock(rt);
        open.hints = open.hints.saturating_add(1);
    }

    /// A hint, with all that it led to, is done.
    pub(crate) fn done<R: Wait>(&self, rt: &R) {
        let mut open = self.open.lock(rt);
        open.hints = open.hints.saturating_sub(1);
        if open.hints == 0 {
            self.quiet.notify_all();
        }
    }

    /// All is to end, for this reason, if it is the first.
    pub(crate) fn stop<R: Wait>(&self, rt: &R, stop: Stop) {
        let mut open = self.open.lock(rt);
        if open.stop.is_none() {
            open.stop = Some(stop);
        }
        self.quiet.notify_all();
    }

    /// Whether all is to go on.
    ///
    /// # Errors
    ///
    /// Why it is not, as it was found first.
    pub(crate) fn going<R: Wait>(&self, rt: &R) -> Result<(), Stop> {
        match self.open.lock(rt).stop {
            Some(stop) => Err(stop),
            None => Ok(()),
        }
    }

    /// The fault to be told where the seats have come to this one: want of memory, where that was found first.
    pub(crate) fn first<R: Wait>(&self, rt: &R, fault: Fault) -> Fault
        requires { (fault ≡ OutOfMemory) ⊎ (fault ≡ BadEvent) }
        ensures fault { (result ≡ OutOfMemory) ⊎ (result ≡ BadEvent) }
        ensures bad { result ≡ BadEvent → fault ≡ BadEvent }
    {
        match self.going(rt) {
            Err(Stop::NoMemory) => Fault::OutOfMemory,
            _ => fault,
        }
    }

    /// Waits until no hint is open, or there was a fault.
    pub(crate) fn settle<R: Wait>(&self, rt: &R) {
        let open = self.quiet.wait_while(rt, self.open.lock(rt), |open| {
            open.hints > 0 && open.stop.is_none()
        });
        drop(open);
    }
}
