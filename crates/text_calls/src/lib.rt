//! Calls with ample memory of ts_name, ts_text, ts_hold, ts_plan, ts_archive, ts_report, ts_need, ts_check, ts_swap and
//! ts_plan_build. A crate is proved a second time with its tests, so those that need nothing private of a library stand here.
#![tactic(auto)]

#[cfg(test)]
mod archives;
#[cfg(test)]
mod checks;
#[cfg(test)]
mod holds;
#[cfg(test)]
mod names;
#[cfg(test)]
mod needs;
#[cfg(test)]
mod plans;
#[cfg(test)]
mod reports;
#[cfg(test)]
mod resumed;
#[cfg(test)]
mod shared;
#[cfg(test)]
mod swaps;
#[cfg(test)]
mod texts;
