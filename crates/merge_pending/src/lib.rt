// The pending store as a merge reads it, record by record. Safety does not depend on its contents: the kind and length of a record
// are tested before it is read.
#![tactic(auto)]

ghost use Rattle.std.specs.Prelude.{◌≤◌, ◌<◌, length};
ghost use Rattle.merge_pending.specs.inner.Becoming.{RecordLength, RunSkipped, CanSkip, NextRecord};

use table::{Header, REMOVE_ROW};

// The number of words of the record at a place of the pending store, if a complete record starts there.
pub fn record_length(h: Header, pending: &[u32], at: u32) -> Option<u32>
    requires { (h.columns ≤ 8) × (h.keys ≤ 8) × (h.pending ≤ length pending.now) × (at ≤ h.pending) }
    ensures { RecordLength h pending.now at result }
{
    if h.pending <= at {
        return None;
    }
    let kind = pending[at as usize];
    if REMOVE_ROW < kind {
        return None;
    }
    let words = table::kind_words(h, kind);
    (words <= h.pending - at).then_some(words)
}

// The place after a run of records of one kind, each of `words` words.
fn after_run(h: Header, pending: &[u32], from: u32, kind: u32, words: u32) -> u32
    requires { (h.pending ≤ length pending.now) × (from ≤ h.pending) × (0 < words) }
    ensures { RunSkipped h pending.now from kind words result }
{
    let mut at = from;
    // No `for`: the run of records of this kind ends before the store does, and the place is the result.
    while words <= h.pending - at {
        if pending[at as usize] != kind {
            return at;
        }
        at += words;
    }
    at
}

// The place where a pass that looks for records of one kind continues after the record at `at`: behind that record and, if it is of
// another kind, behind all records of its kind that follow it.
pub fn next_record(h: Header, pending: &[u32], at: u32, words: u32, wanted: u32) -> u32
    requires { CanSkip h pending.now at words }
    ensures { NextRecord h pending.now at words wanted result }
{
    let kind = pending[at as usize];
    let next = at + words;
    if kind == wanted {
        return next;
    }
    after_run(h, pending, next, kind, words)
}
