//! The call of a procedure.
use crate::event::Args;

/// A call of a procedure: what a transaction is started with.
#[derive(Drop)]
pub struct Call {
    /// The procedure, by its index in the list of procedures.
    pub procedure: u16,
    /// The arguments.
    pub args: Args,
}
