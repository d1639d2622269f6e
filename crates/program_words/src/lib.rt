//! The words behind the program's name, read as one of its forms.
#![tactic(auto)]

mod forms;
mod numbers;
mod options;

pub use forms::{Form, Load, form_of_words};
