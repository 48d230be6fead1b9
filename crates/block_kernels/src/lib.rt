//! The numeric kernels of task bodies, as plain loops over slices. They take no memory and always return.
#![tactic(auto)]

mod folds;
mod in_place;
mod lanes;
pub mod laws;
#[cfg(test)]
mod tests;

pub use folds::{greatest, least, sum};
pub use in_place::{
    add_to_both, add_to_left, add_to_right, copy_along, scale_to_left, shift_to_left, sub_to_both,
    sub_to_left, sub_to_right,
};
pub use lanes::{add, copy, fill, jacobi2, ramp, scale, shift, sub};
