//! Which NAMEs hold the addresses of one segment of an SAE J1939 network.
#![tactic(auto)]

mod address_claimed;
mod claims;
mod law;

pub use claims::Claims;
pub use law::claims_are_apart;
