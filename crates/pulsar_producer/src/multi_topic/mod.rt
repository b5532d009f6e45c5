//! A producer of many topics: the producers of its topics, in whose turn they are used, and the plans of those that use it.

pub mod closing;
pub mod deed;
pub mod laws;
pub mod producer;
pub mod sending;
