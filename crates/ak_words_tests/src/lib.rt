//! Tests of `ak_words`: command lines, and what they ask for.
#![tactic(auto)]

#[cfg(test)]
mod lines;
