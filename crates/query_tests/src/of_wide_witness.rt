//! Relations that lead two moments on, or back, and are seen to be wide, from one object or two; and no step at all, along time.

use itpg_base::ObjNo;
use relation_rows::Relation;
use wide_witness::{along_time, is_seen_wide};
use zone_core::{Bounds, tight};

#[test]
fn steps_lead_to_every_second_moment(rt: HostRuntime) {
    let alloc = rt.alloc();
    let zone = tight(Bounds {
        a: 0,
        b: 100,
        c: 2,
        d: 102,
        e: 2,
        f: 2,
    })
    .expect(&rt, "a zone");
    let items = Vec::from_slice(alloc, &[(ObjNo(0), ObjNo(0), zone)]).expect(&rt, "memory");
    let relation = Relation::from_zones(alloc, items, 1).expect(&rt, "one row");
    // Three steps lead to 0, 2, 4 and 6.
    assert!(rt; is_seen_wide(alloc, &relation, 3, 3) == Ok(true));
    assert!(rt; is_seen_wide(alloc, &relation, 3, 4) == Ok(false));
    assert!(rt; is_seen_wide(alloc, &Relation::empty(alloc), 3, 0) == Ok(false));
    assert!(rt; relation.rows_from(ObjNo(0)).len() == 1);
    assert!(rt; relation.rows_from(ObjNo(1)).is_empty());
}

#[test]
fn steps_lead_back_from_the_last_departure(rt: HostRuntime) {
    let alloc = rt.alloc();
    let zone = tight(Bounds {
        a: 2,
        b: 102,
        c: 0,
        d: 100,
        e: -2,
        f: -2,
    })
    .expect(&rt, "a zone");
    let items = Vec::from_slice(alloc, &[(ObjNo(0), ObjNo(0), zone)]).expect(&rt, "memory");
    let relation = Relation::from_zones(alloc, items, 1).expect(&rt, "one row");
    // From 2 they lead to 2 and 0 alone, and from 102 to 102, 100, 98 and 96.
    assert!(rt; is_seen_wide(alloc, &relation, 3, 3) == Ok(true));
}

#[test]
fn runs_of_two_objects_are_summed(rt: HostRuntime) {
    let alloc = rt.alloc();
    let zone = tight(Bounds {
        a: 0,
        b: 100,
        c: 2,
        d: 102,
        e: 2,
        f: 2,
    })
    .expect(&rt, "a zone");
    let items = [(ObjNo(0), ObjNo(0), zone), (ObjNo(1), ObjNo(1), zone)];
    let items = Vec::from_slice(alloc, &items).expect(&rt, "memory");
    let relation = Relation::from_zones(alloc, items, 2).expect(&rt, "two rows");
    // One step leads each of them to 0 and 2.
    assert!(rt; is_seen_wide(alloc, &relation, 1, 3) == Ok(true));
    assert!(rt; is_seen_wide(alloc, &relation, 1, 4) == Ok(false));
}

#[test]
fn no_step_leads_along_time(rt: HostRuntime) {
    let alloc = rt.alloc();
    let none = Relation::empty(alloc);
    let all = along_time(alloc, &none, &none, 2, 0).expect(&rt, "memory");
    let all = all.expect(&rt, "no step leads otherwise");
    assert!(rt; all.row_count() == 0);
}
