//! What a plan does at what it is told.

/// It stays, in this state, and does this, or it ends and gives its value.
#[derive(Drop)]
pub enum Transition<S, D, A> {
    Stays(S, D),
    Gives(A),
}
