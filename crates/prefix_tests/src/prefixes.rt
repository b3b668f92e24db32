//! The maps from prefixes.

mod drawn;
mod growths;
mod keys;
mod leaves;
