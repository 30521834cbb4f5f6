//! What is printed is read back.
//!
//! `hx_script` reads a text exactly as the definition `script_of` does, and `hx_print` writes
//! exactly the definition `script_text`. This crate has no code. It says of the two definitions
//! that reading undoes printing: [`prints_are_read_back`], for every script that the language can
//! say and so for every script that was read, but for the numbers of the lines on which steps
//! stood, since those are of the text and not of the script. Which numbers come in their place
//! `on_printed_lines` tells (`specs/Again.antt`), and [`prints_are_alike`] that they change
//! nothing of the print. [`calls_are_read_back`] says the same of a call on a line of its own, as
//! `read_op` reads it and `print_op` writes it, and [`bundle_prints_are_read_back`] of a bundle, as
//! `read_bundle` reads it and `print_bundle` writes it.
//!
//! What the language can say is told in `specs/Sayable.antt` and `specs/SayableBundles.antt`. A
//! text with a control character other than newline and tab is printed as it is, and no line of the
//! language has it; nor has one a step of an actor that isn't there, or a post of an entry past the
//! numbers of 64 bits. A script or a bundle that was read has none of these.
//!
//! That reading undoes printing is the usual round trip of a printer and a parser; the language is
//! this project's own.
#![tactic(auto)]

mod laws;

pub use laws::{
    bundle_prints_are_read_back, calls_are_read_back, prints_are_alike, prints_are_read_back,
};
