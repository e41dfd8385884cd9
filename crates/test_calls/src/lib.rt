//! Tests of calls, of what no clause says and no row can show: of single parts, trees in memory of their own, what is
//! due of a coordinator, and saves; of nodes on threads, the ledger, calls at the wire, and whole runs. They call what
//! every user of these crates can call.
#![tactic(auto)]

#[cfg(test)]
mod at_the_wire;
#[cfg(test)]
mod heaps;
#[cfg(test)]
mod in_a_heap;
#[cfg(test)]
mod ledgers;
#[cfg(test)]
mod runbook;
#[cfg(test)]
mod runs;
#[cfg(test)]
mod saves;
#[cfg(test)]
mod wires;
