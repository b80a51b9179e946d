// Code over any fingerprint, and tests of the fingerprints and of the equality of pages.
#![tactic(auto)]

#[cfg(test)]
mod fletcher_tests;
#[cfg(test)]
mod page_tests;
#[cfg(test)]
mod pages;
#[cfg(test)]
mod sample_tests;
mod sharing;
#[cfg(test)]
mod sharing_tests;

pub use sharing::share_a_number;
