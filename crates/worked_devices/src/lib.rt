//! Worked rows of the libraries below: what lines, devices and captures give in their public calls.
//! They stand here, and not beside those calls, since a crate with tests is proved twice.
#![tactic(auto)]

#[cfg(test)]
mod answer_rows;
#[cfg(test)]
mod capture_rows;
#[cfg(test)]
mod device_rows;
#[cfg(test)]
mod expecting;
#[cfg(test)]
mod json_rows;
#[cfg(test)]
mod lane_rows;
#[cfg(test)]
mod line_rows;
#[cfg(test)]
mod link_rows;
