//! Test cases as text files in the data of a test program: a question, and the expected output.
//!
//! [`check`] prints for each case whether the output of the program under test is the expected one. The crate
//! has no contracts.
//!
//! A file `NAME.cases` has cases separated by empty lines. Each line of a case begins with a keyword or a sign:
//! `$` marks the question, and `>` each line of the expected output. The input text of the question is built
//! line by line. These keywords append to it:
//!
//! - `text TEXT`: the text and a line end.
//! - `part TEXT`: the text without a line end.
//! - `byte NUMBER`: one byte.
//! - `file NAME`: the content of a file.
//! - `lines FIRST LAST NAME`: lines of a file, counted from 1.
//!
//! These keywords change the text so far:
//!
//! - `change OLD ~> NEW`: replaces the first occurrence of `OLD`.
//! - `repeat COUNT PART`: repeats the first occurrence of `PART`, so that it occurs `COUNT` times.
//! - `within NAME`: inserts the text at the `@` of a file.
//!
//! Other lines are comments.
#![tactic(auto)]

mod answer_checks;
mod case_texts;
pub mod example_designs;

pub use answer_checks::{Answers, asked, check, check_answer, word};
pub use case_texts::text_of;
