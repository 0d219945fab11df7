// Decodes conditions from words, three for each.
ghost use Rattle.std.specs.Prelude.{◌+◌, ◌*◌, ◌≤◌, ◌≡◌, length, take};
ghost use Rattle.constraints.specs.Encoding.{condition_in, conditions_in};

use super::{Constraint, EQUAL_COLUMNS};

// The words of a condition: its kind, then at these places its column and its value.
pub const CONDITION_WORDS: usize = 3;

const COLUMN_AT: usize = 1;

const VALUE_AT: usize = 2;

// The most conditions of a list.
pub const MOST_CONDITIONS: usize = 16;

// Decodes the condition with number `i`.
pub fn read_condition(words: &[u32], i: usize) -> Constraint
    requires { i * 3 + 3 ≤ length words.now }
    ensures { result ≡ condition_in words.now i }
{
    let at = i * CONDITION_WORDS;
    Constraint {
        kind: words[at],
        column: words[at + COLUMN_AT],
        value: words[at + VALUE_AT],
    }
}

// Decodes `count` conditions; the remaining entries are unspecified.
pub fn read_conditions(words: &[u32], count: usize) -> [Constraint; MOST_CONDITIONS]
    requires { (count ≤ 16) × (count * 3 ≤ length words.now) }
    ensures { take count result ≡ conditions_in count words.now }
{
    let none = Constraint {
        kind: EQUAL_COLUMNS,
        column: 0,
        value: 0,
    };
    let mut all = [none; MOST_CONDITIONS];
    for i in 0..count {
        all[i] = read_condition(words, i);
    }
    all
}
