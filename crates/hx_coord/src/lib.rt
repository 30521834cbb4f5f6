//! The coordinator: it issues numbered configurations, and its step for each input.
//!
//! A [`Coordinator`] takes servers out and adds replicas, one configuration after the other, as
//! HyperDex's does. Each has one change and is issued at once, whatever configurations the servers
//! have by then. That memory suffices no contract says: a test shows it.
#![tactic(auto)]

mod agendas;
mod calls;
mod configs;
mod coordinators;
mod hearing;
mod issuing;
mod judging;
mod numbers;
mod outputs;
mod posting;
mod prepared;
mod servers;
mod stops;
mod turns;

pub use coordinators::Coordinator;
pub use prepared::Plan;
