// The new texts of a write and of a cut.
ghost use Rattle.std.specs.Prelude.{◌≡◌, ◌∷◌, ◌≤◌, [], length};
ghost use Rattle.std.specs.Option.{option_map_or};
ghost use Rattle.file_blocks.specs.WriteFields.{write_of};
ghost use Rattle.file_blocks.specs.Writes.{count_of, texts_over};

use crate::pieces::{first_of, last_of};
use crate::put::Texts;
use crate::taken::Taken;
use crate::text::text_into;
use crate::write::Write;
use indirect_macs::MacError;

/// The new texts of the blocks that a write touches.
#[derive(Drop)]
pub(crate) struct WriteTexts<'a> {
    pub write: Write<'a>,
    pub taken: Taken,
    ghost front: { length taken.front.items ≤ write.block },
    ghost back: { length taken.back.items ≤ write.block },
}

impl<'a> Texts for WriteTexts<'a> {
    ghost told = { λ t. texts_over (write_of t.write) t.taken.front.items t.taken.back.items
        (count_of (write_of t.write)) };

    fn count(&self) -> u32 {
        last_of(&self.write) - first_of(&self.write) + 1
    }

    fn text_into(&self, at: u32, out: &mut Vec<u8>) -> Result<(), MacError> {
        text_into(&self.write, &self.taken, first_of(&self.write) + at, out)
    }
}

/// The one new text of a cut, or none.
#[derive(Drop)]
pub(crate) struct CutTexts {
    pub front: Option<Vec<u8>>,
}

impl Texts for CutTexts {
    ghost told = { λ t. option_map_or (λ text. text.items ∷ []) t.front [] };

    fn count(&self) -> u32 {
        match &self.front {
            Some(_) => 1,
            None => 0,
        }
    }

    fn text_into(&self, _: u32, out: &mut Vec<u8>) -> Result<(), MacError> {
        out.clear();
        let Some(text) = &self.front else {
            return Ok(());
        };
        match out.extend_from_slice(text.as_slice()) {
            Ok(()) => Ok(()),
            Err(_) => Err(MacError::NoMemory),
        }
    }
}
