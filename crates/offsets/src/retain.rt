// Builds the answer of `retain` over a range: a range while the kept ids are consecutive, then a list of all of them. The loop of
// `retain` itself is in the crate that has its test.
ghost use Rattle.std.specs.Prelude.{◌≡◌, ◌+◌, ◌<◌, ◌≤◌, length, slice_set};
ghost use Rattle.lists.specs.Lists.{splice, iota};
ghost use Rattle.offsets.specs.inner.RetainBuilder.{pushed, CanAdd, Adds, BuilderBegins, BuilderEnds};

use super::SubsetForm;

// The answer of `retain` over a range while it is built: the first kept id, the number of kept ids, and the number of ids written.
// No id is written while they are consecutive; afterwards all of them are. It has only numbers, which a loop holds in registers.
#[derive(Clone, Copy)]
pub struct RetainBuilder {
    pub start: u32,
    pub count: u32,
    pub written: u32,
}

impl RetainBuilder {
    // The initial state: nothing is kept.
    pub fn new() -> RetainBuilder
        ensures { BuilderBegins result }
    {
        RetainBuilder {
            start: 0,
            count: 0,
            written: 0,
        }
    }

    // Adds a kept id, which is above the others.
    pub fn add(self, output: &mut [u32], id: u32) -> RetainBuilder
        requires { CanAdd output.old self id }
        ensures { Adds output.old self id result output.new }
    {
        if self.written != 0 {
            return self.push(output, id);
        }
        if self.count == 0 {
            return RetainBuilder {
                start: id,
                count: 1,
                ..self
            };
        }
        if self.start + self.count == id {
            return RetainBuilder {
                count: self.count + 1,
                ..self
            };
        }
        fill_from_dense(output, self.start, self.count);
        self.push(output, id)
    }

    // Appends an id to the output. All others are written already.
    fn push(self, output: &mut [u32], id: u32) -> RetainBuilder
        requires { (self.count < length output.old) × (self.count < 4294967295) }
        ensures { (result ≡ pushed self) × (output.new ≡ slice_set output.old self.count id) }
    {
        output[self.count as usize] = id;
        let count = self.count + 1;
        RetainBuilder {
            count,
            written: count,
            ..self
        }
    }

    // The answer, once all kept ids are added.
    pub fn finish(self) -> SubsetForm
        requires { self.written ≡ 0 → self.start + self.count < 4294967296 }
        ensures { BuilderEnds self result }
    {
        if self.written == 0 {
            return SubsetForm::Range(self.start, self.start + self.count);
        }
        SubsetForm::List(self.count)
    }
}

// Writes consecutive ids to the start of the output.
pub fn fill_from_dense(output: &mut [u32], start: u32, count: u32)
    requires { (start + count < 4294967296) × (count ≤ length output.old) }
    ensures { output.new ≡ splice output.old 0 (iota start count) }
{
    for i in 0..count {
        output[i as usize] = start + i;
    }
}
