//! The cases of step code: which code the verifier takes, and what steps leave.
use crate::code_verification::wrong_codes;
use crate::step_outcomes::wrong_steps;
use case_files::{Answers, asked};
use std::io;

/// Tables of codes.
pub struct Codes;

impl Answers for Codes {
    // The rows that are not as wanted.
    fn answer(&self, rt: &HostRuntime, case: &str) -> io::Result<Vec<u8>> {
        let wrong = match asked(case) {
            "verifier" => wrong_codes(rt.alloc())?,
            _ => wrong_steps(rt.alloc())?,
        };
        Ok(wrong.into_bytes())
    }
}
