//! Tests each call over tables that were damaged by hand after they were last checked.

mod answers;
mod calls;
mod changes;
mod damage;
mod fixture;
mod insert_script;
mod lines;
mod reads;
mod rows;
mod tables;

pub(crate) use lines::run_lines;
