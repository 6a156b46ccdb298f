//! What no program of this repository does with its own types, done once, so that the gate proves
//! that it can be done: conditions that a call meets, laws that hold of an application, and traits
//! that a test implements.
#![tactic(auto)]

#[cfg(test)]
mod compare;
#[cfg(test)]
mod conditions;
#[cfg(test)]
mod laws;
#[cfg(test)]
mod poll_order;
#[cfg(test)]
mod pool_calls;
#[cfg(test)]
mod requests;
#[cfg(test)]
mod traits;
