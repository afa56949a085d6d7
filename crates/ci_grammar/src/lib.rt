//! What the first refused token means, whatever the tokens. Nothing but laws stands here.
#![tactic(auto)]

mod laws;

pub use laws::{
    completion_is_spelled, end_is_cut_short, faults_are_explained, too_deep_wants_level,
    unexpected_is_wrong,
};
