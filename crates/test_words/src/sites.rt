//! Accesses by ticket.

use crate::same::{same, same_at};
use access_types::access::Access;
use access_types::kind::{Kind, Operation};
use access_types::sites::Sites;
use access_types::tickets::ticket;
use std::alloc::AllocError;
use std::process::Abort;

/// The access of task 0 at a site, to four bytes of its own.
fn read_at(site: u8) -> Option<Access> {
    let read = Kind::Plain(Operation::Read);
    let addr = 0x10000 + 64 * site as u64;
    Access::new(0, site as u32, addr, 4, read, None).ok()
}

/// Of the first 64 sites, those below `count` have their accesses there.
fn expect_sites_below(rt: &impl Abort, sites: &Sites, count: u8) {
    for site in 0..64 {
        let access = read_at(site).expect(rt, "an access");
        let found = sites.get(ticket(&access)).copied();
        let wanted = (site < count).then_some(access);
        same_at(rt, (site, count), found, wanted);
    }
}

/// Adds an access, whose ticket has to be new.
fn add(rt: &impl Abort, sites: &mut Sites, access: &Access) -> Result<(), AllocError> {
    assert!(rt; sites.get(ticket(access)).is_none());
    sites.add(access)
}

/// The first accesses of tasks 0 and 1.
fn firsts(rt: &impl Abort) -> [Access; 2] {
    let read = Access::new(0, 0, 0x10000, 4, Kind::Plain(Operation::Read), None);
    let write = Access::new(1, 0, 0x10000, 4, Kind::Plain(Operation::Write), None);
    [read.expect(rt, "an access"), write.expect(rt, "an access")]
}

#[test]
fn accesses_are_found_by_ticket(rt: HostRuntime) {
    let [read, write] = firsts(&rt);
    let mut sites = Sites::new(rt.alloc());
    add(&rt, &mut sites, &read).expect(&rt, "memory");
    add(&rt, &mut sites, &write).expect(&rt, "memory");
    same(&rt, sites.get(1).copied(), Some(read));
    same(&rt, sites.get(65537).copied(), Some(write));
    for number in [0, 2, 65536] {
        same_at(&rt, number, sites.get(number).copied(), None);
    }
}

/// Adds the access of a site. A refused growth leaves the sites as they were.
fn add_at(rt: &impl Abort, sites: &mut Sites, site: u8) {
    let access = read_at(site).expect(rt, "an access");
    if add(rt, sites, &access).is_err() {
        expect_sites_below(rt, sites, site);
        add(rt, sites, &access).expect(rt, "memory");
    }
}

/// Where memory is ample, each access is added at once. Run under a refusal of the Nth growth
/// for each N, this shows that the map is then unchanged, and that the access can be added
/// later.
#[test]
fn a_refused_growth_leaves_the_sites_unchanged(rt: HostRuntime) {
    let mut sites = Sites::new(rt.alloc());
    for site in 0..64 {
        add_at(&rt, &mut sites, site);
        expect_sites_below(&rt, &sites, site + 1);
    }
}
