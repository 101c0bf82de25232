//! Tests of the crates that read copper files, through their public calls.
#![tactic(auto)]

#[cfg(test)]
mod aperture_words;
#[cfg(test)]
mod contours;
#[cfg(test)]
mod flattened;
#[cfg(test)]
mod layers;
#[cfg(test)]
mod macro_words;
#[cfg(test)]
mod real_apertures;
#[cfg(test)]
mod real_files;
#[cfg(test)]
mod real_primitives;
#[cfg(test)]
mod repeats;
#[cfg(test)]
mod words;
