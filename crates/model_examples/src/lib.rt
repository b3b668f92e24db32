//! Examples of the model's definitions, by computation: bytes that were written by hand from the RFCs, and what they
//! mean, from attributes and updates up to whole reports. No crate is above this one, so that none waits for them.
#![tactic(auto)]
