//! The zone of a band, by hand.

use band_normal::{Band, End, zone_of};
use zone_core::Bounds;

#[test]
fn a_band_has_its_zone(rt: HostRuntime) {
    let band = Band {
        from: 0,
        to: 8,
        low: End::Moving(0),
        high: End::Moving(12),
    };
    let bounds = Bounds {
        a: 0,
        b: 8,
        c: 0,
        d: 20,
        e: 0,
        f: 12,
    };
    assert!(rt; zone_of(&band).bounds() == bounds);
}
