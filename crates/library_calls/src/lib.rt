//! Calls of the lower libraries with ample memory. A crate is proved a second time with its tests, so those that need
//! nothing private of a library stand here.
#![tactic(auto)]

#[cfg(test)]
mod actions;
#[cfg(test)]
mod bundles;
#[cfg(test)]
mod folders;
#[cfg(test)]
mod marks;
#[cfg(test)]
mod packing;
#[cfg(test)]
mod plans;
#[cfg(test)]
mod sites;
#[cfg(test)]
mod tables;
