//! Tests of the libraries that stand on `caf_base` alone, or nearly so: `caf_io`, `caf_text`, `coarray_types`,
//! `fortran_lines` and `fortran_tokens`.
//! It stands on these; nothing stands on it.
//! What is wanted was worked out by hand. A test ends where memory is wanting, so that none gives up what is half made.
//! It has no code besides its tests: what the libraries promise is proved there.
#![tactic(auto)]

#[cfg(test)]
mod arrays;
#[cfg(test)]
mod lines;
#[cfg(test)]
mod numbers;
#[cfg(test)]
mod outside;
#[cfg(test)]
mod tokens;
