//! Tests of the reader of components: of bytes that other tools made, and of broken ones.
#![tactic(auto)]

#[cfg(test)]
mod sections;
#[cfg(test)]
mod worlds;
