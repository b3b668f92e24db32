//! Tests of masks and of patterns of communities as text.
#![tactic(auto)]

#[cfg(test)]
mod texts;
