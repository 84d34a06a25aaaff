//! Up to as many texts as an object may have labels.
ghost use Rattle.std.specs.Prelude.{◌≡◌, ◌≤◌, take};

use itpg_base::MAX_LABELS;

#[derive(Clone, Copy)]
pub(crate) struct Names<'a> {
    pub(crate) items: [&'a [u8]; MAX_LABELS],
    pub(crate) len: usize,
    ghost few: { len ≤ 8 },
}

impl<'a> Names<'a> {
    pub(crate) fn none() -> Names<'a>
        ensures { result.len ≡ 0 }
    {
        let empty: &[u8] = b"";
        Names {
            items: [empty; MAX_LABELS],
            len: 0,
        }
    }

    pub(crate) fn as_slice(&self) -> &[&'a [u8]]
        ensures { result.now ≡ take self.now.len self.now.items }
    {
        &self.items[..self.len]
    }
}
