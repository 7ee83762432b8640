//! Streams, places, worlds made by calls, plugging as a text and refused growths, by the calls that `wac` passes on, and lists
//! in the order of their keys. What runs of the program and steps of a workspace come to is shown by the rows of `wac_all_rows`.
#![tactic(auto)]

#[cfg(test)]
mod declared_rows;
#[cfg(test)]
mod encoded_rows;
#[cfg(test)]
mod handed;
#[cfg(test)]
mod memory;
#[cfg(test)]
mod place_rows;
#[cfg(test)]
mod plug_text;
#[cfg(test)]
mod readme;
#[cfg(test)]
mod sorted_rows;
#[cfg(test)]
mod streams;
#[cfg(test)]
mod streams_tests;
#[cfg(test)]
mod worlds;
#[cfg(test)]
mod worlds_rows;
