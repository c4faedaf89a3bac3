//! Tests of the ground: names, numbers and lists, documents, shelf, source and sink, schemas, rows and what is baked.
#![tactic(auto)]

#[cfg(test)]
mod baked;
#[cfg(test)]
mod base;
#[cfg(test)]
mod fixture;
#[cfg(test)]
mod json;
#[cfg(test)]
mod outside;
#[cfg(test)]
mod rows;
#[cfg(test)]
mod schemas;
