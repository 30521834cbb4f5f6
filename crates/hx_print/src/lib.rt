//! The plain text of scripts and of their parts, in this project's own script language.
//!
//! A part is appended to bytes by its `put_` function, which takes no memory but for them; the
//! `print` functions give it alone. They fail for want of memory alone, and after that the bytes
//! are as they were but for what may have been appended. No contract says that there is memory, so
//! the tests show each call succeed.
#![tactic(auto)]

mod bundles;
mod calls;
mod digits;
mod numbers;
mod scripts;
mod spaces;
mod texts;

pub use bundles::print_bundle;
pub use calls::{print_op, put_op};
pub use numbers::{Numbered, put_number, put_numbers};
pub use scripts::{print, put_actor, put_call_name, put_caller, put_post_name};
pub use spaces::{print_space, put_space};
pub use texts::{print_text, put_bytes, put_named, put_text};
