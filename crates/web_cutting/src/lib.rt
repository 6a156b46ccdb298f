//! Laws over many crates: of bodies that are cut into pieces in more than one way, of what
//! arguments leave of a body, and of any list of calls of a pool.
#![tactic(auto)]

mod argument_cutting;
mod decoder_cutting;
mod first_takers;
mod head_cutting;
mod list_cutting;
mod multipart_cutting;
mod over_limit;
mod pool_calls;
mod reply_cutting;
mod value_cutting;
mod within_cutting;

pub use argument_cutting::{argument_cutting_law, capped_cutting_law, place_cutting_law};
pub use decoder_cutting::decoder_cutting_law;
pub use first_takers::{
    capped_taking_law, data_taking_law, either_taking_law, head_taking_law, list_taking_law,
    payload_taking_law, read_taking_law, value_taking_law,
};
pub use head_cutting::{data_cutting_law, head_cutting_law, read_cutting_law};
pub use list_cutting::list_cutting_law;
pub use multipart_cutting::{multipart_cutting_law, multipart_taking_law};
pub use over_limit::{capped_over_limit_law, list_over_limit_law, over_limit_law};
pub use pool_calls::{PoolCall, make_calls};
pub use reply_cutting::reply_cutting_law;
pub use value_cutting::{either_cutting_law, value_cutting_law};
pub use within_cutting::{
    argument_within_law, capped_within_law, list_within_law, reply_within_law,
};
