//! The texts of the sample book: drawn words in chapters, with a note and a reference to each chapter's page.
#![tactic(auto)]

pub mod book;
mod chapters;
mod draws;
mod fixed;
mod words;
