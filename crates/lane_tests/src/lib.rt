//! Tests of rounds, of lanes on one thread, and of what gates are told.
#![tactic(auto)]

#[cfg(test)]
mod gates;
#[cfg(test)]
mod growths;
#[cfg(test)]
mod playing;
#[cfg(test)]
mod rounds;
#[cfg(test)]
mod schedules;
