// The walk over the names of a macro's parameters.

ghost use Rattle.std.specs.Iterator.{at_most};
ghost use Rattle.macros.specs.Walk.{gives_name};

use crate::{Names, behind_name};

// Gives each name together with the names after it.
impl<'a> Iterator for Names<'a> {
    type Item = (&'a [u8], Names<'a>);

    ghost next_gives = { gives_name };

    ghost remaining = { λ s. at_most s.count };

    fn next(&mut self) -> Option<Self::Item> {
        if self.count == 0 {
            return None;
        }
        let behind = behind_name(self.list, self.at);
        let name = &self.list[self.at + 1..behind];
        *self = Names {
            list: self.list,
            count: self.count - 1,
            at: behind,
        };
        Some((name, *self))
    }
}
