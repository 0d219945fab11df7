// Queries on a table's rows: refine, any match and page of table/mod.rs. This crate has the types that their definitions use, and
// the refusals of each query; the queries themselves are in crates above. specs/Queries.antt has the definitions.
#![tactic(auto)]

pub mod refusing; // refusing.rt: the refusals of each query

// A page: how many ids were written, how many of those visited have a dead row, and the next place, if any.
#[derive(Clone, Copy)]
pub struct Page {
    pub written: u32,
    pub dead: u32,
    pub next: Option<u32>,
}
