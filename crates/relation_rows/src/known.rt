//! Zones with their normal bands. Sources and targets that follow one another often have the same zones, and these are made normal
//! once.
ghost use Rattle.std.specs.Prelude.{◌≡◌, [], map, OnOk};
ghost use Rattle.itpg_base.specs.Lists.{Among};
ghost use Rattle.band_normal.specs.declared.band.Band.{Band as PlainBand};
ghost use Rattle.band_normal.specs.Bands.{IsWellFormed};
ghost use Rattle.band_normal.specs.Normal.{Normal};
ghost use Rattle.band_normal.specs.Zones.{SomeMeets};
ghost use Rattle.relation_rows.specs.Relations.{Item};

use crate::gather::{Item, fill_zones};
use band_normal::{Band, normal};
use std::alloc::{AllocError, Global};
use std::marker::Model;
use std::mem::swap;
use zone_core::Zone;

/// Some zones, and the normal bands of their union. A contract sees the bands.
#[derive(Drop)]
pub(crate) struct Known {
    zones: Vec<Zone>,
    bands: Vec<Band>,
    // Memory for the zones that are to be learned next.
    fresh: Vec<Zone>,
}

impl Model for Known {
    ghost use Rattle.std.specs.Prelude.{List};
    ghost use Rattle.band_normal.specs.declared.band.Band.{Band};
    ghost use Rattle.relation_rows.specs.Gathering.{AreBandsOf};

    ghost Value = { List Band };

    ghost view = { λ k. k.bands.items };

    ghost invariant = { λ k. AreBandsOf k.zones.items k.bands.items };
}

impl Known {
    /// No zones, which have no bands.
    pub(crate) fn new(alloc: Global) -> Known
        ensures { result ≡ [] }
    {
        Known {
            zones: Vec::new(alloc),
            bands: Vec::new(alloc),
            fresh: Vec::new(alloc),
        }
    }

    /// The allocator of its lists.
    pub(crate) fn allocator(&self) -> Global {
        *self.bands.allocator()
    }

    /// The bands.
    pub(crate) fn bands(&self) -> &[Band]
        ensures { result.now ≡ self.now }
    {
        &self.bands
    }

    /// Makes the items' zones normal, unless they are the known ones.
    pub(crate) fn learn(&mut self, items: &[Item]) -> Result<(), AllocError>
        ensures normal { OnOk result (Normal (SomeMeets (map (λ (i : Item). i.2) items.now)) self.new) }
        ensures formed { OnOk result ((b : PlainBand) → Among self.new b → IsWellFormed b) }
    {
        let alloc = self.allocator();
        fill_zones(&mut self.fresh, items)?;
        if self.fresh == self.zones {
            return Ok(());
        }
        let zones = Vec::from_slice(alloc, &self.fresh)?;
        self.bands = normal(alloc, zones)?;
        swap(&mut self.zones, &mut self.fresh);
        Ok(())
    }
}
