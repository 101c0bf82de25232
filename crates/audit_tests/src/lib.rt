//! Tests of the audit, through its public calls.
#![tactic(auto)]

#[cfg(test)]
mod audits;
