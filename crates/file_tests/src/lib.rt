//! Tests of lengths, lines, made boards, drill files, labels, netlists, packages, takes and puts, through their public calls.
#![tactic(auto)]

#[cfg(test)]
mod decimals;
#[cfg(test)]
mod drill_files;
#[cfg(test)]
mod labels;
#[cfg(test)]
mod lines;
#[cfg(test)]
mod made_boards;
#[cfg(test)]
mod netlists;
#[cfg(test)]
mod packages;
#[cfg(test)]
mod real_packages;
#[cfg(test)]
mod takes_and_puts;
