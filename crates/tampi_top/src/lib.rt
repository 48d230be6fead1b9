//! The top call: from the words and the bytes that come in to the bytes that go out.
#![tactic(auto)]

mod accepted;
mod decided;
pub mod laws;
mod reading;
mod top;

pub use call_words::needs_run;
pub use heat_text::heat_text;
pub use top::{Outcome, tampi};

#[cfg(test)]
mod bind_tests;
#[cfg(test)]
mod limit_tests;
#[cfg(test)]
mod order_tests;
#[cfg(test)]
mod tests;
#[cfg(test)]
mod unrolled_tests;
#[cfg(test)]
mod wait_tests;
