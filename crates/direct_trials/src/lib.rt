//! Examples of runs on the direct stand, on a site bench.
#![tactic(auto)]

#[cfg(test)]
mod tests;
