//! The tokens of a line.

use crate::key::Key;
use crate::sign::Sign;
use rt_base::Name;

/// A token: a name, a reserved word, a number or a sign.
#[derive(Debug, Drop)]
pub enum Token {
    Name(Name),
    Key(Key),
    Number(i64),
    Sign(Sign),
}
