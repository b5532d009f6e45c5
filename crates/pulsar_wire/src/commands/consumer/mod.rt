pub mod delivery;
pub mod position;
pub mod subscription;
