//! The configurations of a scope, and what is done at a refusal.
pub(crate) mod config_choices;
pub(crate) mod layer_configs;
pub(crate) mod refuse;
pub(crate) mod refused;
