// What the calls at a replica do: definitions and theorems. The code stands in the crates above.
#![tactic(auto)]

// Document 01's report. `open_count` is its number of open transactions.
#[repr(C)]
#[derive(Clone, Copy)]
pub struct Report {
    pub turn: u32,
    pub commits: u32,
    pub tickets: u32,
    pub open_count: u32,
    pub committed: u32,
    pub read_only: u32,
    pub aborted: u32,
    pub withdrawn: u32,
}
