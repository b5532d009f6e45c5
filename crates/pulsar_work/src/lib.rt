//! What the programs `produce` and `consume` have to do: the words that ask for it, the calls, how far they are, and what is printed.
#![tactic(auto)]

pub mod asking;
pub mod form;
pub mod printing;
pub mod progress;

pub use crate::asking::{MADE, Next, Task, what_next};
pub use crate::form::{Form, parse};
pub use crate::printing::report;
pub use crate::progress::{Dial, Progress};
