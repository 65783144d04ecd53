//! Going over the stored pictures.
ghost use Rattle.std.specs.Prelude.{◌≡◌, map};
ghost use Rattle.std.specs.Iterator.{YieldsFirstRef, item_count};
ghost use Rattle.hevc_dpb.specs.Pictures.{pictures_left};

use crate::dpb::Dpb;
use crate::entry::DpbEntry;
use hevc_pictures::PictureData;

/// The stored pictures that are left, in the order in which they were stored.
#[derive(Drop)]
pub struct Pictures<'a, T: Copy> {
    entries: &'a [DpbEntry<T>],
}

impl<'a, T: Copy> Iterator for Pictures<'a, T> {
    type Item = &'a PictureData;

    ghost next_gives = { YieldsFirstRef pictures_left };

    ghost remaining = { item_count pictures_left };

    fn next(&mut self) -> Option<&'a PictureData> {
        let (first, others) = self.entries.split_first()?;
        self.entries = others;
        Some(&first.picture)
    }
}

impl<T: Copy> Dpb<T> {
    ghost use Rattle.hevc_dpb.specs.Views.{stored_entries};

    /// The stored pictures, in the order in which they were stored.
    pub fn pictures(&self) -> Pictures<'_, T>
        ensures { pictures_left result ≡ map (λ e. e.picture) (stored_entries self.now) }
    {
        Pictures {
            entries: self.entries(),
        }
    }
}
