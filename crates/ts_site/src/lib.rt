//! Sites: the places of a replica where commits put what was staged.
#![tactic(auto)]

mod boxed;
mod fault;
mod faulty;
mod memory;
mod site;

pub use fault::SiteFault;
pub use faulty::FaultySite;
pub use memory::MemSite;
pub use site::Site;
