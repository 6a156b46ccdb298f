//! Scripts of a load: as many exchanges as are asked for, drawn from a seed.
#![tactic(auto)]

mod drawn;
mod load;
mod load_script;

pub use load::Load;
pub use load_script::script_text;
