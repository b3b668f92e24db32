//! Tests of whole replays over devices that fail, memory that is refused, and limits that no dump reaches.
#![tactic(auto)]

#[cfg(test)]
mod devices;
#[cfg(test)]
mod gates;
#[cfg(test)]
mod growths;
#[cfg(test)]
mod harness;
#[cfg(test)]
mod limits;
#[cfg(test)]
mod refusals;
