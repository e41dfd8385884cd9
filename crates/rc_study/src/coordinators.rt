//! The rules that the coordinator reaches.

use crate::answers::{count_of, is_refused};
use crate::rules::Rule;
use crate::servers::pair;
use crate::surveying::Survey;
use rc_types::{Body, Code, Kind, Message, Row, Seq, ServerId};
use std::alloc::AllocError;

impl Survey {
    /// A message of a server has come to the coordinator.
    pub(crate) fn report(
        &mut self,
        from: ServerId,
        body: &Body,
        answer: &[Message],
    ) -> Result<(), AllocError> {
        match body {
            Body::Enlist => {
                let is_stale = is_refused(answer, Code::StaleGeneration);
                self.reach_if(is_stale, Rule::EnlistRefused);
                let begins = count_of(answer, Kind::Gather) > 0;
                self.reach_if(begins, Rule::EnlistBeginsAttempt);
            }
            Body::Commit { seg, epoch } => {
                let is_crashed = is_refused(answer, Code::Deposed);
                let is_below = pair(*seg, *epoch) < self.servers.least_of(from);
                self.reach_if(is_crashed, Rule::CommitOfCrashed);
                self.reach_if(is_below && !is_crashed, Rule::LeastPairStays);
            }
            Body::Recovered { attempt, .. } => {
                let is_stale = is_refused(answer, Code::StaleAttempt) && self.is_replaced(*attempt);
                self.reach_if(is_stale, Rule::RecoveredOfReplacedAttempt);
            }
            Body::Replicas { attempt, rows } => self.replicas(*attempt, rows)?,
            _ => {}
        }
        Ok(())
    }

    /// A backup has answered what it holds.
    fn replicas(&mut self, attempt: u32, rows: &Seq<Row>) -> Result<(), AllocError> {
        if self.is_replaced(attempt) {
            self.counts.reach(Rule::AnswerOfReplacedAttempt);
            return Ok(());
        }
        if let Some(known) = self.recoveries.attempt_mut(attempt) {
            let least = self.servers.least_of(known.master);
            for row in rows.as_slice() {
                known.answer(row, least)?;
            }
        }
        Ok(())
    }

    /// Whether the attempt was replaced by a later one of the same master.
    fn is_replaced(&self, attempt: u32) -> bool {
        let Some(known) = self.recoveries.attempt(attempt) else {
            return false;
        };
        let server = self.servers.get(known.master);
        server.is_some_and(|server| server.attempt.is_some_and(|newest| newest > attempt))
    }

    /// A recovery was decided: perhaps plans were sent.
    pub(crate) fn decide(&mut self, answer: &[Message]) {
        let counts = &mut self.counts;
        for message in answer {
            if let Body::Plan { attempt, rows, .. } = &message.body {
                if let Some(known) = self.recoveries.attempt(*attempt) {
                    counts.reach_if(known.has_stale, Rule::OpenRowBelowLeastPair);
                    for row in rows.as_slice() {
                        counts.reach_if(known.has_both(row.seg), Rule::ClosedRowFirst);
                    }
                }
            }
        }
    }
}
