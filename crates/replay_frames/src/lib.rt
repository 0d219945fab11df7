// Lists in words: each item is a kind, a count and that number of words.
#![tactic(auto)]

ghost use Rattle.std.specs.Iterator.{YieldsFirstBy, item_count};
ghost use Rattle.replay_frames.specs.Items.{item_of, items_left};

// An item: its kind and the words that it counts.
#[derive(Clone, Copy)]
pub struct Frame<'a> {
    pub kind: u32,
    pub words: &'a [u32],
}

// The items of a list, in order. An incomplete item ends it.
#[derive(Clone, Copy)]
pub struct Frames<'a>(pub &'a [u32]);

impl<'a> Iterator for Frames<'a> {
    type Item = Frame<'a>;

    ghost next_gives = { YieldsFirstBy item_of items_left };

    ghost remaining = { item_count items_left };

    fn next(&mut self) -> Option<Frame<'a>> {
        let [kind, count, rest @ ..] = self.0 else {
            return None;
        };
        let (words, rest) = rest.split_at_checked(*count as usize)?;
        self.0 = rest;
        Some(Frame { kind: *kind, words })
    }
}
