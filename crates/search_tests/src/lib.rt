//! Tests of areas, arcs, fields, gaps, nets and reports, through their public calls.
#![tactic(auto)]

#[cfg(test)]
mod areas;
#[cfg(test)]
mod chains;
#[cfg(test)]
mod fields;
#[cfg(test)]
mod grown;
#[cfg(test)]
mod nets;
#[cfg(test)]
mod reports;
