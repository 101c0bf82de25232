//! Tests of shapes of copper, through their public calls.
#![tactic(auto)]

#[cfg(test)]
mod arc_contours;
#[cfg(test)]
mod boards;
#[cfg(test)]
mod bounds;
#[cfg(test)]
mod capsules;
#[cfg(test)]
mod counts;
#[cfg(test)]
mod odd_sizes;
#[cfg(test)]
mod outlines;
#[cfg(test)]
mod polygons;
#[cfg(test)]
mod region_bounds;
#[cfg(test)]
mod segments;
