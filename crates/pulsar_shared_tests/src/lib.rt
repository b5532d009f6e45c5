//! What no clause says of a client that threads share: that its calls get on, that both links of two are served, and that what one thread
//! submits the others read.
#![tactic(auto)]

#[cfg(test)]
mod gate;
#[cfg(test)]
mod gates;
#[cfg(test)]
mod help;
#[cfg(test)]
mod numbers;
#[cfg(test)]
mod passes;
#[cfg(test)]
mod sends;
#[cfg(test)]
mod traces;
