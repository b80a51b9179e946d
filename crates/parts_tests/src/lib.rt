// Examples for every flash part: each refusal, the limits of the memory part and of the pair, and how a memory part may be held.
#![tactic(auto)]

#[cfg(test)]
mod held;
#[cfg(test)]
mod limits;
#[cfg(test)]
mod piles;
mod refusals;
