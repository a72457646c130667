//! Tests of public calls with ample memory, a file for each crate.
//!
//! It has no functions of its own. A contract allows want of memory as an answer to each call that may need some, so
//! that a call answers anything else is tested: by the folders of cases/ where the program reaches it, and else here. Tests stand apart
//! from what they test, so that neither they nor a change in them prove a crate again.
#![tactic(auto)]

#[cfg(test)]
mod base;
#[cfg(test)]
mod build;
#[cfg(test)]
mod cond;
#[cfg(test)]
mod html;
#[cfg(test)]
mod input;
#[cfg(test)]
mod scope;
#[cfg(test)]
mod small;
#[cfg(test)]
mod steps;
#[cfg(test)]
mod top;
#[cfg(test)]
mod tree;
#[cfg(test)]
mod xref;
