// A mask of sheets: bit i chooses sheet i.
#![tactic(auto)]

ghost use Rattle.std.specs.Prelude.{◌≡◌};
ghost use Rattle.std.specs.Iterator.{at_most};
ghost use Rattle.masks.specs.Chosen.{NextChosen};
ghost use Rattle.masks.specs.Mask.{count_to};

// How many sheets the mask chooses.
pub fn count(mask: u32) -> u32
    ensures { result ≡ count_to 32 mask }
{
    mask.count_ones()
}

// The sheets that a mask chooses, the lowest first.
#[derive(Drop)]
pub struct Chosen(pub u32);

impl Iterator for Chosen {
    type Item = usize;

    ghost next_gives = { NextChosen };

    ghost remaining = { λ s. at_most s.0 };

    fn next(&mut self) -> Option<usize> {
        if self.0 == 0 {
            return None;
        }
        let k = self.0.trailing_zeros() as usize;
        self.0 &= self.0 - 1;
        Some(k)
    }
}
