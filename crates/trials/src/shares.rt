// The share-out.
use crate::told::told;
use share::{Claim, share_out};

#[derive(Clone, Copy)]
struct Want {
    size: u32,
    place: u32,
}

impl Claim for Want {
    ghost wanted = { λ w. w.size };

    ghost standing = { λ w. w.place };

    fn size(&self) -> u32 {
        self.size
    }

    fn place(&self) -> u32 {
        self.place
    }
}

// Three sizes in line.
fn three(a: u32, b: u32, c: u32) -> [Want; 3] {
    [
        Want { size: a, place: 1 },
        Want { size: b, place: 2 },
        Want { size: c, place: 7 },
    ]
}

#[test]
fn parts(rt: HostRuntime) {
    let mut out = [9u32; 3];
    assert_eq!(rt; told(share_out(6, &three(2, 4, 6), &mut out)), 0);
    assert!(rt; out == [1, 2, 3], "exact");
    assert_eq!(rt; told(share_out(30, &three(10, 20, 31), &mut out)), 0);
    assert!(rt;
        out[0] == 5 && out[1] == 10 && out[2] == 15,
        "two odd contracts"
    );
    assert_eq!(rt; told(share_out(2, &three(0, 1, 2), &mut out)), 0);
    assert!(rt; out == [0, 1, 1], "none to a claim of nothing");
    assert_eq!(rt; told(share_out(0, &three(0, 0, 0), &mut out)), 0);
    assert!(rt; out == [0, 0, 0], "nothing wanted");
}

#[test]
fn refusals(rt: HostRuntime) {
    let mut out = [9u32; 3];
    let mut pair = [9u32; 2];
    assert_eq!(rt; told(share_out(1, &three(0, 0, 0), &mut out)), 6);
    assert_eq!(rt; told(share_out(7, &three(1, 2, 3), &mut out)), 6);
    assert_eq!(rt; told(share_out(1, &three(1, 2, 1_000_001), &mut out)), 6);
    assert_eq!(rt; told(share_out(1, &three(1, 2, 3), &mut pair)), 6);
    let level = [Want { size: 1, place: 4 }, Want { size: 1, place: 4 }];
    assert_eq!(rt; told(share_out(1, &level, &mut pair)), 6);
    assert!(rt; out == [9, 9, 9] && pair == [9, 9], "nothing written");
    assert_eq!(rt;
        told(share_out(1_000_000, &three(0, 0, 1_000_000), &mut out)),
        0
    );
}

// So many claims of one contract each.
fn line<const N: usize>() -> [Want; N] {
    let mut wants = [Want { size: 1, place: 0 }; N];
    for (place, want) in (0..).zip(wants.iter_mut()) {
        want.place = place;
    }
    wants
}

#[test]
fn too_many(rt: HostRuntime) {
    let mut out = [0u32; 129];
    assert_eq!(rt; told(share_out(5, &line::<129>(), &mut out)), 6);
}

#[test]
fn many(rt: HostRuntime) {
    let mut out = [0u32; 128];
    assert_eq!(rt; told(share_out(5, &line::<128>(), &mut out)), 0);
    assert!(rt; out[0] == 1 && out[4] == 1 && out[5] == 0 && out[127] == 0);
}
