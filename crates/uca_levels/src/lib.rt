//! The order of texts (UTS #10, section 7.4, Compare Sort Keys, step S4), found level by level.
//!
//! [`Weights`] gives the weights of one level one by one, and [`Points`] the code points of the fifth. [`compare`] and
//! [`compare_sources`] return the order of two sort keys without making them. [`compare_sources`] reads each text once for each
//! level up to the first one that decides, and at later levels only from the safe cut of the two texts on. [`compare`] has both
//! texts in memory: it passes over the bytes that both begin with, and reads the elements of the rest without a window where few
//! characters join each other. Nothing here allocates.
#![tactic(auto)]

mod cell_weights;
mod common_pass;
pub mod comparison;
mod cut;
mod decided;
mod first_weight;
mod joined_weights;
mod level_order;
pub mod points;
pub mod primaries;
mod stream;
pub mod text_order;
pub mod weights;

pub use comparison::compare_sources;
pub use points::Points;
pub use primaries::primary_weight;
pub use text_order::compare;
pub use weights::Weights;
